//! Rendering in pieces.
ghost use Rattle.std.specs.Prelude.{◌≡◌, ◌<◌};

use chuck_vm::{Vm, Wake};
use fixed_point::Memory;
use std::alloc::Global;

/// The samples that are rendered in all.
const SAMPLES: u32 = 100_000;

/// What a machine told on its way.
#[derive(Drop)]
pub(crate) struct Told {
    pub(crate) samples: Vec<i16>,
    pub(crate) text: Vec<u8>,
    pub(crate) wakes: Vec<Wake>,
}

/// What this machine tells, rendered in pieces of so many samples; the last may be shorter.
pub(crate) fn render(alloc: Global, vm: Vm, piece: u32) -> Result<Told, Memory>
    requires fresh { vm.samples ≡ 0 }
    requires some { 0 < piece }
{
    let mut told = Told {
        samples: Vec::new(alloc),
        text: Vec::new(alloc),
        wakes: Vec::new(alloc),
    };
    let mut vm = vm;
    let mut left = SAMPLES;
    while left > 0 {
        let count = piece.min(left);
        vm = vm.render(
            alloc,
            count,
            &mut told.samples,
            &mut told.text,
            &mut told.wakes,
        )?;
        left -= count;
    }
    Ok(told)
}
