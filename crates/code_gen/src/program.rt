ghost use Rattle.std.specs.Prelude.{ℕ, ◌≡◌, [], IfOk, map, slice_get};
ghost use Rattle.ck_scheme.specs.Scheme.{IsCodeOf, SameFun, IsScheme, body_code, default_instr};
ghost use Rattle.ck_scheme.specs.Texts.{funs_texts, once_each};
ghost use Rattle.ck_typed.specs.View.{view_fun, view_program};
ghost use Rattle.ck_scheme.specs.Follows.{Follows, HasSameRuns, MeansOnFitting};

use ck_base::{List, Text};
use ck_code::{Code, CodeParts, Fun, Instr, Step};
use ck_typed::{Class, Program, ProgramParts, TypedFun};
use ck_values::{Elem, Kind};
use code_pieces::put;
use code_texts::{Texts, collect_texts};
use emit_code::emit_body;
use fixed_point::{Fix, Memory};
use std::alloc::Global;

// What a function returns whose body doesn't return.
fn default_of(kind: Kind, texts: &Texts) -> Instr
    ensures { result ≡ default_instr texts.now kind }
{
    match kind {
        Kind::One(Elem::Int) => Instr::Int(0),
        Kind::One(Elem::Float) => Instr::Float(Fix::from_raw(0)),
        Kind::One(Elem::Dur) => Instr::Dur(0),
        Kind::One(Elem::Time) => Instr::Time(0),
        Kind::One(Elem::Text) => Instr::Text(texts.number(b"")),
        Kind::One(Elem::Shred) => Instr::NoShred,
        Kind::One(Elem::Class(_) | Elem::Unit(_)) => Instr::Null,
        Kind::Void | Kind::Null | Kind::Row(_) | Kind::Grid(_) => Instr::Null,
    }
}

// The instructions of a function: those of its body, and then the default of its result is returned.
fn generate_steps(
    alloc: Global,
    classes: &[Class],
    texts: &Texts,
    fun: &TypedFun,
) -> Result<Vec<Step>, Memory>
    ensures { let fun = view_fun fun.now in IfOk result (λ steps.
        steps.items ≡ body_code classes.now texts.now fun.body fun.result fun.place) }
{
    let mut steps = Vec::new(alloc);
    emit_body(&mut steps, &fun.body, classes, texts)?;
    put(&mut steps, default_of(fun.result, texts), fun.place)?;
    put(&mut steps, Instr::Return, fun.place)?;
    Ok(steps)
}

// A function of these instructions, with its locals. Its tree is dropped.
fn with_steps(fun: TypedFun, steps: Vec<Step>) -> Fun
    ensures params { result.params ≡ fun.params }
    ensures locals { result.locals ≡ fun.locals }
    ensures steps { result.code ≡ steps.items }
{
    Fun {
        params: fun.params,
        locals: fun.locals,
        code: List::from_vec(steps),
    }
}

// The code of a function.
fn generate_fun(
    alloc: Global,
    classes: &[Class],
    texts: &Texts,
    fun: TypedFun,
) -> Result<Fun, Memory>
    ensures { IfOk result (IsCodeOf classes.now texts.now (view_fun fun)) }
{
    let steps = generate_steps(alloc, classes, texts, &fun)?;
    Ok(with_steps(fun, steps))
}

// The code of functions, one after another. The tree of each is dropped when its code stands.
fn generate_funs(
    alloc: Global,
    classes: &[Class],
    texts: &Texts,
    funs: Vec<TypedFun>,
) -> Result<Vec<Fun>, Memory>
    ensures { IfOk result (λ codes. (f : ℕ) → SameFun classes.now texts.now
        (slice_get (map view_fun funs.items) f) (slice_get codes.items f)) }
{
    let mut codes = Vec::new(alloc);
    for fun in funs {
        codes.push(generate_fun(alloc, classes, texts, fun)?)?;
    }
    Ok(codes)
}

// What a program's trees give: its functions' code and the strings that they name.
struct Generated {
    funs: List<Fun>,
    texts: List<Text>,
}

// The code of functions, with their strings.
fn generate_trees(
    alloc: Global,
    classes: &[Class],
    funs: List<TypedFun>,
) -> Result<Generated, Memory>
    ensures funs { let strings = once_each [] (funs_texts (map view_fun funs)) in
        IfOk result (λ code. (f : ℕ) → SameFun classes.now strings
        (slice_get (map view_fun funs) f) (slice_get code.funs f)) }
    ensures texts { IfOk result
        (λ code. code.texts ≡ once_each [] (funs_texts (map view_fun funs))) }
{
    let strings = collect_texts(alloc, funs.items())?;
    let texts = strings.to_list(alloc)?;
    let codes = generate_funs(alloc, classes, &strings, funs.into_vec())?;
    Ok(Generated {
        funs: List::from_vec(codes),
        texts,
    })
}

// The parts of a program's code, which has the program's tables.
fn generate_parts(alloc: Global, program: ProgramParts) -> Result<CodeParts, Memory>
    ensures { IfOk result (IsScheme (view_program program)) }
{
    let ProgramParts {
        classes,
        funs,
        statics,
        mains,
        ..
    } = program;
    match generate_trees(alloc, classes.items(), funs) {
        Ok(Generated { funs, texts }) => Ok(CodeParts {
            funs,
            texts,
            classes,
            statics,
            mains,
        }),
        Err(memory) => Err(memory),
    }
}

/// The code of a program.
///
/// The code is that of the scheme. For every shred, function, arguments and stores that its slices
/// find, it has the outcome, the store, the acts, the turns and the place of a trap that the trees
/// have. Where the arguments suit the function and the stores fit the code, neither is ever wrong.
/// A run of up to 500,000,000 samples has the samples, the text, the slices and the store that the
/// run of the program has.
pub fn generate(alloc: Global, program: Program) -> Result<Code, Memory>
    ensures scheme { IfOk result (IsScheme (view_program program)) }
    ensures follows { IfOk result (Follows (view_program program)) }
    ensures means { IfOk result (MeansOnFitting (view_program program)) }
    ensures runs { IfOk result (HasSameRuns (view_program program)) }
{
    let parts = generate_parts(alloc, program.into_parts())?;
    Ok(Code::new(parts))
}
