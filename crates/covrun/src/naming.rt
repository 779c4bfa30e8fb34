//! How names from outside stand in messages.

ghost use Rattle.std.specs.Prelude.{◌≡◌, ◌++◌, option_map, OnOk};
ghost use Rattle.covrun.specs.Naming.{naming_asked as naming_asked_of, naming_for as naming_for_work, naming_of, naming_read as naming_read_of, told_lines, told_name};
ghost use Rattle.covrun.specs.View.{question_data, work_data};

use crate::question::Question;
use crate::work::{FileFormat, Work};
use covcommand::{LcovVersion, Strictness};
use covdata::{Bytes, Memory};
use covlist::{put_shown_lines, put_shown_name};

/// How names and checksums from outside stand in the messages of a call.
#[derive(Clone, Copy)]
pub(crate) enum Naming {
    /// As they are.
    Plain,
    /// With their control bytes in hexadecimal digits, as in a list.
    Shown,
}

impl Naming {
    /// How names stand in the messages of a call that does `work`: as they are, if the call has no option but `--jobs` and
    /// `--test`, and isn't a list. `file` is the name of the file that the call names for its text.
    pub(crate) fn of(work: &Work, file: Option<&str>) -> Naming
        ensures { result ≡ naming_of (option_map (λ name. name.now) file.entry) (work_data work.now) }
    {
        match file {
            None => naming_for(work.strictness, &work.format, &work.asks),
            Some(_) => Naming::Shown,
        }
    }

    /// Appends `name` to `text`.
    pub(crate) fn put_name(self, name: &[u8], text: &mut Bytes) -> Result<(), Memory>
        ensures { OnOk result (text.new ≡ text.old ++ told_name self name.now) }
    {
        match self {
            Naming::Plain => text.append(name),
            Naming::Shown => put_shown_name(name, text),
        }
    }

    /// Appends `lines`, which names stand in, to `text`.
    pub(crate) fn put_lines(self, lines: &[u8], text: &mut Bytes) -> Result<(), Memory>
        ensures { OnOk result (text.new ≡ text.old ++ told_lines self lines.now) }
    {
        match self {
            Naming::Plain => text.append(lines),
            Naming::Shown => put_shown_lines(lines, text),
        }
    }
}

/// How names stand if the text goes to the output.
fn naming_for(strictness: Strictness, format: &FileFormat, asks: &Question) -> Naming
    ensures { result ≡ naming_for_work strictness format.now (question_data asks.now) }
{
    match strictness {
        Strictness::Lenient => naming_read(format, asks),
        Strictness::Strict => Naming::Shown,
    }
}

/// How names stand if the text goes to the output and the call isn't strict.
fn naming_read(format: &FileFormat, asks: &Question) -> Naming
    ensures { result ≡ naming_read_of format.now (question_data asks.now) }
{
    match format {
        FileFormat::Tracefile(LcovVersion::One) | FileFormat::GcovOutput(_) => naming_asked(asks),
        FileFormat::Tracefile(LcovVersion::Two) | FileFormat::LargeTracefile(_) => Naming::Shown,
    }
}

/// How names stand if the text goes to the output and no option says how files are read.
fn naming_asked(asks: &Question) -> Naming
    ensures { result ≡ naming_asked_of (question_data asks.now) }
{
    match asks {
        Question::Answer(_) => Naming::Plain,
        Question::ChosenReport(_) | Question::ChosenTotals { .. } | Question::ChosenList { .. } =>
            Naming::Shown,
    }
}
