//! The run of one text alone: the sample of a number, or statements that were given.

ghost use Rattle.std.specs.Prelude.{◌≡◌, ◌≤◌, ◌∷◌, [], ℕ, List, IfOk, IsErrOf, Some, map, string_bytes, true};
ghost use Rattle.ns_base.specs.Limits.{InRange};
ghost use Rattle.ns_base.specs.Stored.{file_at};
ghost use Rattle.ns_load.specs.Answer.{IsOfTexts};
ghost use Rattle.ns_load.specs.Loaded.{file_names};
ghost use Rattle.ns_load.specs.declared.fault.LoadCause.TheVariants.{ReadFault};
ghost use Rattle.ns_load.specs.declared.fault.LoadFault.TheVariants.{At};
ghost use Rattle.ns_run_files.specs.Programs as spec;
ghost use Rattle.ns_run_input.specs.Input.{run_of};
ghost use Rattle.ns_run_outcome.specs.Stated.{Reports};
ghost use Rattle.ns_run_words.specs.FileName.{is_file_name};
ghost use Rattle.ns_scope.specs.Whole.{IsWhole, NamesFile};

use crate::files::on_fault;
use crate::run::on_run;
use ns_base::limits::Limits;
use ns_base::no_memory::NoMemory;
use ns_base::shelf::Shelf;
use ns_base::sure_shelf::SureShelf;
use ns_base::text::Text;
use ns_lib::sample::sample;
use ns_load::fault::LoadFault;
use ns_load::load::load;
use ns_load::names::names_of;
use ns_run_input::task::RunTask;
use ns_run_outcome::report::Report;
use ns_run_outcome::run::Telling;
use ns_run_outcome::stop::Stop;
use ns_scope::program::Program;
use std::alloc::Global;

/// The report of the run of the sample of n, within the default limits. It reads no file.
pub fn on_sample<S: Shelf>(alloc: Global, n: u32, shelf: &mut S) -> Result<Report, Stop>
    requires least { 1 ≤ n }
    requires most { n ≤ 1000 }
    ensures { Reports S.holds S.misses S.faults S.store_faults shelf.old shelf.new [] (spec.of_sample (Some n)) result }
{
    let telling = Telling {
        classes: Some(n),
        stats: false,
        trace: false,
        truth: false,
        json: false,
    };
    let task = RunTask {
        telling,
        limits: Limits::DEFAULT,
        arguments: &[],
        options: &[],
    };
    match sample(alloc, n) {
        Ok(source) => on_text(alloc, task, false, "sample", source, shelf),
        Err(NoMemory) => Err(Stop::Memory),
    }
}

/// The report of the run of these statements, as it is asked for. No file is read but the inputs.
pub fn on_eval<S: Shelf>(
    alloc: Global,
    task: RunTask<'_>,
    lib: bool,
    text: &str,
    shelf: &mut S,
) -> Result<Report, Stop>
    requires { InRange task.limits }
    ensures { Reports S.holds S.misses S.faults S.store_faults shelf.old shelf.new
        (run_of task.entry).inputs (spec.of_eval (run_of task.entry) lib text.now) result }
{
    match eval_source(alloc, text) {
        Ok(source) => on_text(alloc, task, lib, "eval", source, shelf),
        Err(NoMemory) => Err(Stop::Memory),
    }
}

/// The source of a class whose application answers what these statements do.
fn eval_source(alloc: Global, text: &str) -> Result<Vec<u8>, NoMemory>
    ensures { IfOk result (λ source. source.items ≡ spec.eval_source text.now) }
{
    let mut source = Vec::new(alloc);
    source.extend_from_slice(
        b"class Eval packageUsing: m = (| manifest = m. |) (public main: platform args: args = (^[\n",
    )?;
    source.extend_from_slice(text.as_bytes())?;
    source.extend_from_slice(b"\n] value))\n")?;
    Ok(source)
}

/// The report of the run of this source alone, under that name.
fn on_text<S: Shelf>(
    alloc: Global,
    task: RunTask<'_>,
    lib: bool,
    name: &str,
    source: Vec<u8>,
    shelf: &mut S,
) -> Result<Report, Stop>
    requires file { is_file_name name.now ≡ true }
    requires range { InRange task.limits }
    ensures { Reports S.holds S.misses S.faults S.store_faults shelf.old shelf.new
        (run_of task.entry).inputs (spec.run_of_text (run_of task.entry) name.now lib source.items) result }
{
    match name_alone(alloc, name) {
        Ok(names) => on_named(alloc, task, lib, name, names.as_slice(), source, shelf),
        Err(NoMemory) => Err(Stop::Memory),
    }
}

/// The report of the run of this source alone, under the one name, which is a word too.
fn on_named<S: Shelf>(
    alloc: Global,
    task: RunTask<'_>,
    lib: bool,
    name: &str,
    names: &[String],
    source: Vec<u8>,
    shelf: &mut S,
) -> Result<Report, Stop>
    requires file { is_file_name name.now ≡ true }
    requires named { map string_bytes names.now ≡ name.now ∷ [] }
    requires range { InRange task.limits }
    ensures { Reports S.holds S.misses S.faults S.store_faults shelf.old shelf.new
        (run_of task.entry).inputs (spec.run_of_text (run_of task.entry) name.now lib source.items) result }
{
    match load_alone(alloc, lib, name, names, source) {
        Ok(program) => on_run(alloc, names, task, program, shelf),
        Err(fault) => on_fault(alloc, names, fault),
    }
}

/// The program of this source alone, and of the library where it is asked for.
fn load_alone(
    alloc: Global,
    lib: bool,
    name: &str,
    names: &[String],
    source: Vec<u8>,
) -> Result<Program, LoadFault>
    requires file { is_file_name name.now ≡ true }
    requires named { map string_bytes names.now ≡ name.now ∷ [] }
    ensures texts { IsOfTexts (Some source.items ∷ []) lib result }
    ensures whole { IfOk result IsWhole }
    ensures files { IfOk result (λ program. program.files ≡ file_names (name.now ∷ []) lib) }
    ensures no_read_fault { (k : ℕ) → IsErrOf result (At ReadFault k) → ⊥ }
{
    match (shelf_of(alloc, name, source), names_of(alloc, names)) {
        (Ok(shelf), Ok(texts)) => load_from(alloc, lib, name, texts.as_slice(), shelf),
        _ => Err(LoadFault::Memory),
    }
}

/// The program of the one file of a shelf.
fn load_from(
    alloc: Global,
    lib: bool,
    name: &str,
    texts: &[Text],
    shelf: SureShelf,
) -> Result<Program, LoadFault>
    requires file { NamesFile name.now }
    requires named { texts.now ≡ name.now ∷ [] }
    ensures told { (source : List ℕ) → file_at shelf.files.items name.now ≡ Some source → IsOfTexts (Some source ∷ []) lib result }
    ensures whole { IfOk result IsWhole }
    ensures files { IfOk result (λ program. program.files ≡ file_names (name.now ∷ []) lib) }
    ensures no_read_fault { (k : ℕ) → IsErrOf result (At ReadFault k) → ⊥ }
{
    let mut shelf = shelf;
    load(alloc, &mut shelf, texts, lib)
}

/// A shelf of this file alone.
#[tactic(auto, using(crate::proofs::AloneLaws::kept_alone))]
fn shelf_of(alloc: Global, name: &str, source: Vec<u8>) -> Result<SureShelf, NoMemory>
    ensures { IfOk result (λ shelf. file_at shelf.files.items name.now ≡ Some source.items) }
{
    let mut files = Vec::new(alloc);
    files.push((Text::of(alloc, name.as_bytes())?, source))?;
    Ok(SureShelf { files, misses: 0 })
}

/// That name as one word.
fn name_alone(alloc: Global, name: &str) -> Result<Vec<String>, NoMemory>
    ensures { IfOk result (λ names. map string_bytes names.items ≡ name.now ∷ []) }
{
    let mut names = Vec::new(alloc);
    names.push(String::from_str(alloc, name)?)?;
    Ok(names)
}
