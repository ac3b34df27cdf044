//! What a copy holds.
ghost use Rattle.std.specs.Prelude.{◌≡◌, reverse};
ghost use Rattle.qc_event.specs.Seen as words;

use crate::setting::Setting;
use qc_event::{Entry, Event, Tuple, dead};

/// What a copy holds of a record: its start tuple, changed by each put granted there that is not dead, in
/// order. It takes no memory.
pub fn held(setting: &Setting, h: &[Entry], copy: u8, rec: u8) -> Tuple
    ensures { result ≡ words.seen setting.now.base (reverse h.now) copy rec }
{
    let mut tuple = setting.tuple(copy, rec);
    for e in h {
        if let Event::Granted { copy: c, grant } = &e.event {
            if *c == copy && grant.rec == rec && dead(h, &grant.access).is_none() {
                tuple = tuple.after(&grant.op);
            }
        }
    }
    tuple
}
