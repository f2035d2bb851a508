//! What a command is to store and to write, and the status with which it ends.

ghost use Rattle.std.specs.Prelude.{◌≡◌, ◌++◌, IfOk, string_bytes};
ghost use Rattle.ns_json.specs.declared.saying.Refused.TheVariants as what;
ghost use Rattle.ns_run_outcome.specs.Report as spec;
ghost use Rattle.ns_run_outcome.specs.Report.{bad_word as bad_word_lem, checked as checked_lem, stores as stores_lem, told as told_lem};
ghost use Rattle.ns_run_outcome.specs.Report.{refused as refused_lem, refused_file as refused_file_lem, refused_text as refused_text_lem};

use crate::cause::verify_name;
use ns_base::no_memory::NoMemory;
use ns_base::place::Place;
use ns_base::status::Status;
use ns_base::text::Text;
use ns_json::saying::{FilePlace, Refusal, Refused, Saying};
use ns_verify::fault::{VerifyCause, Where};
use std::alloc::Global;
use std::marker::Model;

/// A file to be stored.
#[derive(Drop)]
pub struct Stored {
    pub name: String,
    pub bytes: Text,
}

impl Model for Stored {
    ghost use Rattle.std.specs.Prelude.{string_bytes};
    ghost use Rattle.ns_run_outcome.specs.Store.{FileStored};

    ghost Value = { FileStored };

    ghost view = { λ s. record { name = string_bytes s.name; bytes = s.bytes } };
}

/// The bytes for each stream, the status, and what is stored before any byte is written. What is written in lines is said
/// in parts too, for those who ask for JSON.
#[derive(Drop)]
pub struct Report {
    pub out: Text,
    pub err: Text,
    pub status: Status,
    pub stored: Option<Stored>,
    /// What is said, in parts, where it is told so.
    pub said: Option<Saying>,
}

/// The report of a command line of which no form begins with the words up to this one.
pub fn bad_word(alloc: Global, word: u64) -> Result<Report, NoMemory>
    ensures { IfOk result (λ r. r ≡ bad_word_lem word) }
{
    let line = format!(in alloc; "nspk: bad word {word}\n")?;
    Ok(refused(alloc, None, line))
}

/// The report of a file that was refused.
pub fn refused_file(alloc: Global, file: &str, cause: &str) -> Result<Report, NoMemory>
    ensures { IfOk result (λ r. r ≡ refused_file_lem file.now cause.now) }
{
    let what = file_refused(alloc, file)?;
    refused_for(alloc, cause, what, refusal_line(alloc, file, cause)?)
}

/// The report of a program, or of its image, of which a size passes its limit.
pub fn refused_size(alloc: Global, cause: &str) -> Result<Report, NoMemory>
    ensures { IfOk result (λ r. r ≡ spec.refused_size cause.now) }
{
    let line = refusal_line(alloc, "nspk", cause)?;
    refused_for(alloc, cause, Refused::Program, line)
}

/// The report of a file whose text is wrong at that place.
pub fn refused_text(
    alloc: Global,
    file: &str,
    place: Place,
    cause: &str,
) -> Result<Report, NoMemory>
    ensures { IfOk result (λ r. r ≡ refused_text_lem file.now place cause.now) }
{
    let what = text_refused(alloc, file, place)?;
    let line = text_line(alloc, file, place, cause)?;
    refused_for(alloc, cause, what, line)
}

/// The report of an image of which the field is bad that begins with the byte of that number.
pub fn bad_field(alloc: Global, file: &str, at: u64) -> Result<Report, NoMemory>
    ensures { IfOk result (λ r. r ≡ spec.bad_field file.now at) }
{
    let what = byte_refused(alloc, file, at)?;
    let why = format!(in alloc; "BadField {at}")?;
    refused_for(
        alloc,
        "BadField",
        what,
        refusal_line(alloc, file, why.as_str())?,
    )
}

/// The report of an image whose code isn't admitted.
pub fn unsound(alloc: Global, file: &str, cause: VerifyCause, at: Where) -> Result<Report, NoMemory>
    ensures { IfOk result (λ r. r ≡ spec.unsound file.now cause at) }
{
    let name = verify_name(cause);
    let what = place_in(alloc, file, at)?;
    let why = cause_at(alloc, name, at)?;
    refused_for(alloc, name, what, refusal_line(alloc, file, why.as_str())?)
}

/// The report of a refusal for that cause, with this line.
fn refused_for(alloc: Global, cause: &str, what: Refused, line: String) -> Result<Report, NoMemory>
    ensures { IfOk result (λ r. r ≡ refused_lem (spec.refusal cause.now what) (string_bytes line)) }
{
    let cause = Text::of(alloc, cause.as_bytes())?;
    let refusal = Refusal {
        cause,
        refused: what,
    };
    Ok(refused(alloc, Some(Saying::Refused { refusal }), line))
}

/// The report of a command that was refused with this line.
fn refused(alloc: Global, said: Option<Saying>, line: String) -> Report
    ensures { result ≡ refused_lem said (string_bytes line) }
{
    Report {
        out: Text::from_vec(Vec::new(alloc)),
        err: Text::from_vec(line.into_bytes()),
        status: Status::Refused,
        stored: None,
        said,
    }
}

/// The line of a refusal: what is refused, by a name, and why.
fn refusal_line(alloc: Global, name: &str, why: &str) -> Result<String, NoMemory>
    ensures { IfOk result (λ line. string_bytes line ≡ spec.refusal_line name.now why.now) }
{
    Ok(format!(in alloc; "{name}: {why}\n")?)
}

/// The line of the refusal of a text at a place.
fn text_line(alloc: Global, file: &str, place: Place, cause: &str) -> Result<String, NoMemory>
    ensures { IfOk result (λ line. string_bytes line ≡ spec.text_line file.now place cause.now) }
{
    let Place { line, col, .. } = place;
    Ok(format!(in alloc; "{file}:{line}:{col}: {cause}\n")?)
}

/// A file, as what is refused.
fn file_refused(alloc: Global, file: &str) -> Result<Refused, NoMemory>
    ensures { IfOk result (λ refused. refused ≡ what.File file.now) }
{
    let file = Text::of(alloc, file.as_bytes())?;
    Ok(Refused::File { file })
}

/// A place in a text, as what is refused.
fn text_refused(alloc: Global, file: &str, place: Place) -> Result<Refused, NoMemory>
    ensures { IfOk result (λ refused. refused ≡ spec.source_at file.now place) }
{
    let Place { line, col, .. } = place;
    let file = Text::of(alloc, file.as_bytes())?;
    let place = FilePlace { file, line, col };
    Ok(Refused::Source { place })
}

/// A byte of a file, as what is refused.
fn byte_refused(alloc: Global, file: &str, at: u64) -> Result<Refused, NoMemory>
    ensures { IfOk result (λ refused. refused ≡ what.Byte file.now at) }
{
    let file = Text::of(alloc, file.as_bytes())?;
    Ok(Refused::Byte { file, offset: at })
}

/// A place in the code of an image, as what is refused.
fn place_in(alloc: Global, file: &str, at: Where) -> Result<Refused, NoMemory>
    ensures { IfOk result (λ refused. refused ≡ spec.place_in file.now at) }
{
    let file = Text::of(alloc, file.as_bytes())?;
    match at {
        Where::Class(class) => Ok(Refused::Class { file, class }),
        Where::Body(body, at) => Ok(Refused::Body { file, body, at }),
    }
}

/// A cause, and where in the code it stands.
fn cause_at(alloc: Global, cause: &str, at: Where) -> Result<String, NoMemory>
    ensures { IfOk result (λ text. string_bytes text ≡ cause.now ++ spec.place_text at) }
{
    match at {
        Where::Class(k) => Ok(format!(in alloc; "{cause} class {k}")?),
        Where::Body(k, i) => in_body(alloc, cause, k, i),
    }
}

fn in_body(alloc: Global, cause: &str, k: u32, i: u32) -> Result<String, NoMemory>
    ensures { IfOk result (λ text. string_bytes text ≡ cause.now ++ spec.place_text (Where.Body k i)) }
{
    let body = format!(in alloc; " body {k}")?;
    Ok(format!(in alloc; "{cause}{body} at {i}")?)
}

/// The report of a command that only tells this.
pub fn told(alloc: Global, text: Text) -> Report
    ensures { result ≡ told_lem text }
{
    Report {
        out: text,
        err: Text::from_vec(Vec::new(alloc)),
        status: Status::Done,
        stored: None,
        said: None,
    }
}

/// The report that tells a text.
pub fn told_text(alloc: Global, text: &str) -> Result<Report, NoMemory>
    ensures { IfOk result (λ r. r ≡ told_lem text.now) }
{
    let text = Text::of(alloc, text.as_bytes())?;
    Ok(told(alloc, text))
}

/// The report of files that are a program.
pub fn checked(alloc: Global) -> Result<Report, NoMemory>
    ensures { IfOk result (λ r. r ≡ checked_lem) }
{
    let report = told_text(alloc, "ok\n")?;
    Ok(Report {
        said: Some(Saying::Checked),
        ..report
    })
}

/// The report of a command that only stores these bytes under that name.
pub fn stores(alloc: Global, name: &str, bytes: Text) -> Result<Report, NoMemory>
    ensures { IfOk result (λ r. r ≡ stores_lem name.now bytes) }
{
    let image = Text::of(alloc, name.as_bytes())?;
    let said = Saying::Stored {
        image,
        bytes: bytes.bytes().len() as u64,
    };
    let name = String::from_str(alloc, name)?;
    Ok(Report {
        out: Text::from_vec(Vec::new(alloc)),
        err: Text::from_vec(Vec::new(alloc)),
        status: Status::Done,
        stored: Some(Stored { name, bytes }),
        said: Some(said),
    })
}
