//! What a copy may grant, and how it may refuse. None of these calls takes memory.
ghost use Rattle.std.specs.Prelude.{◌≡◌, ◌↔◌, IsTrue, None, IfNone};
ghost use Rattle.qc_config.specs.Tuple.{after};
ghost use Rattle.qc_event.specs.Dead as dead_words;
ghost use Rattle.qc_event.specs.Grants as words;
ghost use Rattle.qc_event.specs.Seats as seats;
ghost use Rattle.qc_event.specs.Seen as seen_words;
ghost use Rattle.qc_check.specs.Parts as parts;

use qc_event::{Ask, Grant, Name, Op, Refusal, Tuple, copy_seat};
use qc_scan::{Looks, Setting, is_this, same_ask, same_config, same_tuple};

/// Whether a seat is a copy's.
pub fn is_seat_of(seat: u32, copy: u8) -> bool
    ensures { IsTrue result ↔ (seat ≡ seats.copy_seat copy) }
{
    seat == copy_seat(copy)
}

fn sets(op: &Op, tuple: &Tuple) -> bool
    ensures { IsTrue result ↔ words.Sets op.now tuple.now }
{
    match op {
        Op::Get => true,
        Op::PutData { version, value } => tuple.version == *version && tuple.value == *value,
        Op::PutConfig { generation, config } => {
            tuple.generation == *generation && same_config(&tuple.config, config)
        }
    }
}

fn ask_for(copy: u8, grant: &Grant) -> Ask
    ensures { result ≡ parts.ask_for copy grant.now }
{
    Ask {
        access: grant.access,
        copy,
        rec: grant.rec,
        op: grant.op,
    }
}

/// Whether a copy was asked for what it grants.
pub fn was_asked<H: Looks>(h: &H, copy: u8, grant: &Grant) -> bool
    ensures { IsTrue result ↔ parts.WasAskedFor (H.past h.now) (parts.ask_for copy grant.now) }
{
    match h.asked(&grant.access) {
        Some(asked) => same_ask(&asked.ask(), &ask_for(copy, grant)),
        None => false,
    }
}

/// Whether no grant is in a request's way.
pub fn is_free<H: Looks>(h: &mut H, copy: u8, grant: &Grant) -> bool
    requires asked { parts.WasAskedFor (H.past h.old) (parts.ask_for copy grant.now) }
    ensures free { IsTrue result ↔ (seen_words.holder (H.past h.old) copy grant.now.rec
        grant.now.op grant.now.access ≡ None) }
    ensures past { H.past h.new ≡ H.past h.old }
    ensures setting { H.setting h.new ≡ H.setting h.old }
{
    h.holder(&ask_for(copy, grant)).is_none()
}

fn has_tuple<H: Looks>(h: &mut H, copy: u8, grant: &Grant) -> bool
    requires asked { parts.WasAskedFor (H.past h.old) (parts.ask_for copy grant.now) }
    ensures tuple { IsTrue result ↔ (grant.now.tuple
        ≡ after (seen_words.seen (H.setting h.old).base (H.past h.old) copy grant.now.rec) grant.now.op) }
    ensures past { H.past h.new ≡ H.past h.old }
    ensures setting { H.setting h.new ≡ H.setting h.old }
{
    let held = h.held(&ask_for(copy, grant));
    same_tuple(&grant.tuple, &held.after(&grant.op))
}

fn is_served<H: Looks>(setting: &Setting, h: &mut H, copy: u8, grant: &Grant) -> bool
    requires asked { parts.WasAskedFor (H.past h.old) (parts.ask_for copy grant.now) }
    requires setting { H.setting h.old ≡ setting.now }
    ensures served { IsTrue result
        ↔ words.IsServed setting.now (H.past h.old) copy grant.now }
    ensures past { H.past h.new ≡ H.past h.old }
    ensures setting { H.setting h.new ≡ H.setting h.old }
{
    if !is_free(h, copy, grant) {
        return false;
    }
    has_tuple(h, copy, grant)
}

fn is_served_or_dead<H: Looks>(setting: &Setting, h: &mut H, copy: u8, grant: &Grant) -> bool
    requires asked { parts.WasAskedFor (H.past h.old) (parts.ask_for copy grant.now) }
    requires setting { H.setting h.old ≡ setting.now }
    ensures served { IsTrue result ↔ IfNone (dead_words.dead (H.past h.old) grant.now.access)
        (words.IsServed setting.now (H.past h.old) copy grant.now) }
    ensures past { H.past h.new ≡ H.past h.old }
    ensures setting { H.setting h.new ≡ H.setting h.old }
{
    match h.dead(&grant.access) {
        Some(_) => true,
        None => is_served(setting, h, copy, grant),
    }
}

// Whether a copy grants, once, what was asked of it.
fn is_due<H: Looks>(setting: &Setting, h: &H, seat: u32, copy: u8, grant: &Grant) -> bool
    ensures { IsTrue result ↔ parts.IsDue setting.now (H.past h.now) seat copy grant.now }
{
    is_seat_of(seat, copy)
        && was_asked(h, copy, grant)
        && h.granted(&grant.access).is_none()
        && sets(&grant.op, &grant.tuple)
        && grant.tuple.config.count() == setting.copies()
}

/// Whether a copy may grant: once, what an access asked of it, and to a live access that finds no grant in
/// its way, with the tuple there after its operation. What it tells a dead access is of no account.
pub fn may_grant<H: Looks>(setting: &Setting, h: &mut H, seat: u32, copy: u8, grant: &Grant) -> bool
    requires setting { H.setting h.old ≡ setting.now }
    ensures may { IsTrue result
        ↔ words.MayGrant setting.now (H.past h.old) seat copy grant.now }
    ensures past { H.past h.new ≡ H.past h.old }
    ensures setting { H.setting h.new ≡ H.setting h.old }
{
    if !is_due(setting, h, seat, copy, grant) {
        return false;
    }
    is_served_or_dead(setting, h, copy, grant)
}

fn is_refusal<H: Looks>(h: &mut H, ask: &Ask, refusal: &Refusal) -> bool
    requires asked { parts.WasAskedFor (H.past h.old) ask.now }
    ensures refusal { IsTrue result ↔ words.IsRefusal (H.past h.old) ask.now refusal.now }
    ensures past { H.past h.new ≡ H.past h.old }
    ensures setting { H.setting h.new ≡ H.setting h.old }
{
    let killed = h.dead(&ask.access);
    match refusal {
        Refusal::Dead(ancestor) => is_this(killed, ancestor),
        Refusal::Blocked(by) => killed.is_none() && is_this(h.holder(ask), by),
    }
}

/// Whether a copy may refuse an access that asked it: a dead one, naming the shortest aborted ancestor, and
/// a live one for the first grant in its way, naming the grant's access.
#[tactic(auto, using(crate::proofs::Requested::was_asked_for))]
pub fn may_refuse<H: Looks>(
    h: &mut H,
    seat: u32,
    access: &Name,
    copy: u8,
    refusal: &Refusal,
) -> bool
    ensures may { IsTrue result
        ↔ words.MayRefuse (H.past h.old) seat access.now copy refusal.now }
    ensures past { H.past h.new ≡ H.past h.old }
    ensures setting { H.setting h.new ≡ H.setting h.old }
{
    match h.asked(access) {
        Some(asked) => {
            let ask = asked.ask();
            is_seat_of(seat, copy) && ask.copy == copy && is_refusal(h, &ask, refusal)
        }
        None => false,
    }
}
