//! From the bytes of files to a machine that has made no samples.
ghost use Rattle.std.specs.Prelude.{◌≡◌, ◌≤◌, IfOk, All, length};
ghost use Rattle.ck_base.specs.declared.limits.TheConstants.{MAX_FILES, MAX_FILE_BYTES};

use anyhow::{Result, bail};
use check_decls::check;
use chuck_vm::Vm;
use code_gen::generate;
use command_inputs::trees;
use std::alloc::Global;

/// A machine of the program of these files, which has made no samples.
pub(crate) fn machine(alloc: Global, names: &[String], files: &[Vec<u8>]) -> Result<Vm>
    requires some { 1 ≤ length files.now }
    requires few { length files.now ≤ MAX_FILES }
    requires short { All (λ file. length file.items ≤ MAX_FILE_BYTES) files.now }
    ensures { IfOk result (λ vm. vm.samples ≡ 0) }
{
    let Ok(trees) = trees(alloc, files) else {
        bail!("a file has no tree");
    };
    let Ok(program) = check(alloc, trees.as_slice()) else {
        bail!("the files are no program");
    };
    let code = generate(alloc, program)?;
    Ok(Vm::start(alloc, code, names.to_vec(alloc)?)?)
}
