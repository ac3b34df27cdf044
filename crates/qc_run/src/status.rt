//! How a run ended, and its line.
ghost use Rattle.std.specs.Prelude.{◌≡◌, ◌++◌, IfOk, OnOk};
ghost use Rattle.qc_run.specs.FaultLine as spec;

use qc_codec::{BadImage, ImageFault};
use qc_event::BadConfig;
use qc_report::Page;
use qc_script::{BadScript, Member};
use std::alloc::{AllocError, Global};

/// How a run ended.
#[derive(Debug, Drop)]
pub enum Status {
    /// There is a report, and it was written. No top is in doubt.
    Done,
    /// The words of the command line are no command.
    Usage,
    /// The input is no script.
    Script(BadScript),
    /// The input could not be read.
    ReadFault,
    /// The output could not be written.
    WriteFault,
    /// The disk of this number failed while it was obtained or mounted.
    DiskFault(u8),
    /// What stands on a disk is refused.
    Image(BadImage),
    /// There is a report, and it was written. A top is ready and has no end.
    InDoubt,
    /// There was no memory.
    Memory,
    /// The input is no saved trail.
    Trail,
    /// The saved history is not legal: its entry at this place, counted from 0, is the first that those before it do
    /// not allow.
    Illegal(u64),
    /// The saved history is legal, and the serial machine refuses the order that completion gives it, first at the
    /// event of this place, counted from 0.
    Unserial(u64),
    /// The history had no room for a further entry.
    Room,
}

impl Status {
    ghost use Rattle.qc_run.specs.FaultLine.{exit_code};

    /// The number with which the process ends.
    pub fn code(&self) -> u8
        ensures { result ≡ exit_code self.now }
    {
        match self {
            Status::Done => 0,
            Status::Usage => 2,
            Status::Script(_) => 3,
            Status::ReadFault => 4,
            Status::WriteFault => 5,
            Status::DiskFault(_) => 6,
            Status::Image(_) => 7,
            Status::InDoubt => 8,
            Status::Memory => 9,
            Status::Trail => 10,
            Status::Illegal(_) => 11,
            Status::Unserial(_) => 12,
            Status::Room => 14,
        }
    }
}

/// The line that tells that the history had no room.
pub(crate) const ROOM_LINE: &[u8] = b"qc: room\n";

/// The line that tells a fault, with its newline. A run that has a report and an audit that has a verdict have none,
/// nor has what could not write or had no memory.
pub fn fault_line(alloc: Global, status: &Status) -> Result<Vec<u8>, AllocError>
    ensures { IfOk result (λ text. text.items ≡ spec.fault_line status.now) }
{
    let mut page = Page::new(alloc);
    match status {
        Status::Done
        | Status::WriteFault
        | Status::InDoubt
        | Status::Memory
        | Status::Illegal(_)
        | Status::Unserial(_) => {}
        Status::Usage => {
            write!(
                page,
                "usage: qc run [--dir PATH] [--serial] [--trail] | qc gen N | qc audit\n"
            )?
        }
        Status::Script(why) => {
            write!(page, "qc: script: ")?;
            push_script_fault(&mut page, why)?;
            write!(page, "\n")?;
        }
        Status::ReadFault => write!(page, "qc: read fault\n")?,
        Status::DiskFault(disk) => write!(page, "qc: disk {disk} fault\n")?,
        Status::Image(bad) => {
            let disk = bad.disk;
            write!(page, "qc: image: disk {disk} ")?;
            push_image_fault(&mut page, &bad.fault)?;
            write!(page, "\n")?;
        }
        Status::Trail => write!(page, "qc: trail: malformed\n")?,
        Status::Room => write!(page, "qc: room\n")?,
    }
    Ok(page.into_bytes())
}

fn push_script_fault(page: &mut Page, why: &BadScript) -> Result<(), AllocError>
    ensures { OnOk result (page.new ≡ page.old ++ spec.script_fault why.now) }
{
    match why {
        BadScript::NotJson => write!(page, "not json"),
        BadScript::Shape(member) => {
            let word = member_word(*member);
            write!(page, "shape {word}")
        }
        BadScript::Limit(member, number) => {
            let word = member_word(*member);
            write!(page, "limit {word} {number}")
        }
        BadScript::Config(why) => {
            let code = config_code(*why);
            write!(page, "config {code}")
        }
        BadScript::Unknown(label) => {
            write!(page, "unknown ")?;
            page.push(label.as_bytes())
        }
        BadScript::TooLong => write!(page, "too long"),
        BadScript::Twice(label) => {
            write!(page, "twice ")?;
            page.push(label.as_bytes())
        }
        BadScript::Memory => write!(page, "memory"),
    }
}

fn push_image_fault(page: &mut Page, why: &ImageFault) -> Result<(), AllocError>
    ensures { OnOk result (page.new ≡ page.old ++ spec.image_fault why.now) }
{
    match why {
        ImageFault::Broken { place } => write!(page, "broken at {place}"),
        ImageFault::Grammar { index } => write!(page, "record {index} grammar"),
        ImageFault::Full { place } => write!(page, "full at {place}"),
        ImageFault::Table { .. } => write!(page, "table"),
        ImageFault::Epoch(epoch) => write!(page, "epoch {epoch}"),
    }
}

fn config_code(why: BadConfig) -> u8
    ensures { result ≡ spec.config_code why }
{
    match why {
        BadConfig::Empty => 1,
        BadConfig::Votes => 2,
        BadConfig::Read => 3,
        BadConfig::Write => 4,
        BadConfig::NoOverlap => 5,
    }
}

fn member_word(member: Member) -> &'static str
    ensures { result.now ≡ spec.member_word member }
{
    match member {
        Member::Script => "script",
        Member::Copies => "copies",
        Member::Patience => "patience",
        Member::Records => "records",
        Member::RecordRow => "record",
        Member::Name => "name",
        Member::Start => "start",
        Member::Config => "config",
        Member::Votes => "votes",
        Member::Read => "read",
        Member::Write => "write",
        Member::Sessions => "sessions",
        Member::Session => "session",
        Member::Net => "net",
        Member::Fates => "fates",
        Member::Hold => "hold",
        Member::Tops => "tops",
        Member::Body => "body",
        Member::Tries => "tries",
        Member::Must => "must",
        Member::Steps => "steps",
        Member::Step => "step",
        Member::Value => "value",
        Member::Levels => "levels",
        Member::Copy => "copy",
        Member::Branches => "branches",
    }
}
