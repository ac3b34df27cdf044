//! A run of a site over a desk of its own.
ghost use Rattle.std.specs.Prelude.{◌≡◌, [], length, slice_index_or};
ghost use Rattle.qc_desk.specs.Rules.{IsClient};
ghost use Rattle.qc_site.specs.Mounted.{copies_of, copy_of};
ghost use Rattle.qc_site.specs.Start.{start_of};
ghost use Rattle.rows_serve.specs.TwoRecords.{IsOver};

use crate::answer::{history, told};
use crate::client::Client;
use crate::disks::Disks;
use crate::folds::Folds;
use crate::served::Served;
use crate::start::{base_of, is_ours};
use crate::words::{Tools, one_word};
use qc_codec::Logged;
use qc_desk::{Blank, Desk, Pass, Store};
use qc_disk::HomeDisk;
use qc_site::Mounted;
use qc_trail::Trail;
use std::alloc::{AllocError, Global};
use std::marker::Brand;
use std::sync::Wait;

/// What came of a run: the disks, the tops that committed, and the lines.
#[derive(Drop)]
pub(crate) struct Ran {
    pub(crate) disks: Disks,
    pub(crate) logged: Vec<Logged>,
    pub(crate) lines: Vec<String>,
}

// What each word answered, a line for each.
fn all_words<N: Store, R: Wait>(
    tools: &Tools<'_, R>,
    desk: &Desk<N>,
    pass: &mut Pass<N>,
    served: &mut Served<N>,
    words: &[&str],
) -> Result<Vec<String>, AllocError>
    requires client { IsClient pass.old }
    requires over { IsOver N.table N.base }
    ensures same { (pass.new.live ≡ pass.old.live) × (pass.new.number ≡ pass.old.number)
        × (pass.new.out ≡ pass.old.out) }
{
    let mut lines = Vec::new(tools.alloc);
    let mut client = Client::new();
    for word in words {
        let word = word.trim_ascii();
        let answer = one_word(tools, desk, pass, served, &mut client, word)?;
        lines.push(told(tools.alloc, word, answer.as_str())?)?;
    }
    Ok(lines)
}

// The site of a mounted copy over a desk serves a client. The disks come back, the tops that committed, and the history.
fn run_named<N: Store, R: Wait>(
    rt: &R,
    home: HostRuntime,
    alloc: Global,
    blank: Blank,
    copy: Mounted<HomeDisk>,
    folds: Folds,
    words: &[&str],
) -> (Disks, Vec<Logged>, Trail, Result<Vec<String>, AllocError>)
    requires desk { blank.room.shared.table_id ≡ N.desk }
    requires base { blank.base ≡ N.base }
    requires over { IsOver N.table N.base }
    requires copy { (copy_of copy ≡ 0) × (copies_of copy ≡ length N.base) }
    requires start { start_of copy ≡ slice_index_or N.base 0 [] }
{
    let (desk, mut first) = blank.name::<N>();
    let ledger = desk.split(rt, &mut first);
    let pass = desk.split(rt, &mut first);
    let mut served = Served {
        ledger,
        site: copy.enter::<N, 0>(pass),
        folds,
        logged: Vec::new(alloc),
    };
    let tools = Tools { rt, home, alloc };
    let lines = all_words(&tools, &desk, &mut first, &mut served, words);
    let Served {
        site,
        folds,
        logged,
        ..
    } = served;
    let (disk, _) = site.into_parts();
    let (_, trail) = desk.close(first);
    (folds.into_disks(disk), logged, trail, lines)
}

/// The site of a mounted copy over a new desk with this epoch serves a client by its words: a line for each, and one for
/// the history.
pub(crate) fn over_desk<R: Wait>(
    rt: &R,
    home: HostRuntime,
    alloc: Global,
    copy: Mounted<HomeDisk>,
    folds: Folds,
    epoch: u32,
    words: &str,
) -> Result<Ran, AllocError>
    requires { (copy_of copy ≡ 0) × (copies_of copy ≡ 1) }
{
    if !is_ours(copy.start()) {
        let mut lines = Vec::new(alloc);
        lines.push(told(alloc, "history", "other tuples")?)?;
        return Ok(Ran {
            disks: folds.into_disks(copy.into_disk()),
            logged: Vec::new(alloc),
            lines,
        });
    }
    let words: Vec<&str> = words.split(',').collect(alloc)?;
    let base = base_of(alloc, copy.start())?;
    let blank = Blank::new(alloc, base, epoch.max(1))?;
    let (disks, logged, trail, lines) = run_named::<Brand, R>(
        rt, home, alloc, blank, copy, folds, &words,
    );
    let mut lines = lines?;
    lines.push(history(alloc, trail.to_vec(alloc)?.as_slice())?)?;
    Ok(Ran {
        disks,
        logged,
        lines,
    })
}
