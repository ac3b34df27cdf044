//! Scripts made from random numbers.
ghost use Rattle.std.specs.Prelude.{◌<◌};

use crate::random::Random;
use crate::text::Text;
use std::alloc::{AllocError, Global};

/// Two records at two copies, up to the sessions.
const RECORDS: &str = r#"{"copies":2,"records":[
{"name":"x","start":5,"config":{"votes":[1,1],"read":1,"write":2}},
{"name":"y","start":5,"config":{"votes":[1,2],"read":2,"write":2}}],"sessions":["#;

/// Steps, but those that abort or mark.
const STEPS: [&str; 12] = [
    r#"["read","x"]"#,
    r#"["read","y"]"#,
    r#"["set","x",7]"#,
    r#"["set","y","a\"b"]"#,
    r#"["add","x",1]"#,
    r#"["add","y",2]"#,
    r#"["sub","x",3]"#,
    r#"["sub","y",1]"#,
    r#"["need","y",5]"#,
    r#"["reconf","x",{"votes":[2,1],"read":2,"write":2}]"#,
    r#"["crash",0]"#,
    r#"["crash",1]"#,
];

/// Numbers of sessions and of levels.
const DIGITS: [&str; 6] = ["0", "1", "2", "3", "4", "5"];

/// What becomes of a session's requests.
const NETS: [&str; 5] = [
    r#"{"fates":"d"}"#,
    r#"{"fates":"ddddr"}"#,
    r#"{"fates":"dddddddda"}"#,
    r#"{"fates":"dddh","hold":2}"#,
    r#"{"fates":"dtd"}"#,
];

// One of several texts.
fn pick<'t>(random: &mut Random, texts: &[&'t str]) -> &'t str {
    let limit = (texts.len() as u64).max(1);
    let place = random.below(limit) as usize;
    texts.get(place).copied().unwrap_or("")
}

/// The heads of bodies.
const HEADS: [&str; 3] = [
    r#"{"steps":["#,
    r#"{"tries":2,"steps":["#,
    r#"{"tries":2,"must":true,"steps":["#,
];

/// The heads of bodies that run at once, and none of which runs others so.
const BRANCH_HEADS: [&str; 5] = [
    r#"{"steps":["#,
    r#"{"must":true,"steps":["#,
    r#"{"tries":2,"steps":["#,
    r#"{"tries":3,"steps":["#,
    r#"{"tries":3,"must":true,"steps":["#,
];

/// Whether the tops of a script run bodies at once.
#[derive(Clone, Copy)]
pub enum Tops {
    InTurn,
    AtOnce,
}

// A step with a number below a limit, of at most 6.
fn add_numbered(random: &mut Random, text: &mut Text, word: &str, limit: usize) {
    text.add(word);
    text.add(pick(random, &DIGITS[..limit.min(6)]));
    text.add("]");
}

// A step of a transaction at a depth, in a script of so many sessions.
fn add_step(random: &mut Random, text: &mut Text, depth: usize, sessions: usize) {
    match random.below(14) {
        0 => add_numbered(random, text, r#"["kill","#, sessions),
        1 | 2 => add_numbered(random, text, r#"["abort","#, depth),
        _ => text.add(pick(random, &STEPS)),
    }
}

// One or two steps, up to the end of the body.
fn add_steps(random: &mut Random, text: &mut Text, depth: usize, sessions: usize) {
    add_step(random, text, depth, sessions);
    for _ in 0..random.below(2) {
        text.add(",");
        add_step(random, text, depth, sessions);
    }
    text.add("]}");
}

// A top, which may begin with a child, and that with another.
fn add_top(random: &mut Random, text: &mut Text, sessions: usize) {
    text.add(pick(random, &HEADS));
    let below = random.below(5);
    if below < 3 {
        text.add(r#"["child","#);
        text.add(pick(random, &HEADS));
        if below == 0 {
            text.add(r#"["child","#);
            text.add(pick(random, &HEADS));
            add_steps(random, text, 3, sessions);
            text.add("],");
        }
        add_steps(random, text, 2, sessions);
        text.add("],");
    }
    add_steps(random, text, 1, sessions);
}

// Bodies at a depth that run at once, one to three.
fn add_leaves(random: &mut Random, text: &mut Text, depth: usize, sessions: usize) {
    text.add(r#"["par",["#);
    text.add(pick(random, &HEADS));
    add_steps(random, text, depth, sessions);
    for _ in 0..random.below(3) {
        text.add(",");
        text.add(pick(random, &HEADS));
        add_steps(random, text, depth, sessions);
    }
    text.add("]]");
}

// A body of a top that runs beside others, and may begin with bodies that run at once.
fn add_branch(random: &mut Random, text: &mut Text, sessions: usize) {
    if random.below(4) > 0 {
        text.add(pick(random, &BRANCH_HEADS));
    } else {
        text.add(pick(random, &HEADS));
        add_leaves(random, text, 3, sessions);
        text.add(",");
    }
    add_steps(random, text, 2, sessions);
}

// A top with a step of one to four bodies that run at once. It may begin with another step.
fn add_top_at_once(random: &mut Random, text: &mut Text, sessions: usize) {
    text.add(pick(random, &HEADS));
    if random.below(3) == 0 {
        add_step(random, text, 1, sessions);
        text.add(",");
    }
    text.add(r#"["par",["#);
    add_branch(random, text, sessions);
    for _ in 0..random.below(4) {
        text.add(",");
        add_branch(random, text, sessions);
    }
    text.add("]],");
    add_steps(random, text, 1, sessions);
}

fn add_one(random: &mut Random, text: &mut Text, tops: Tops, sessions: usize) {
    match tops {
        Tops::InTurn => add_top(random, text, sessions),
        Tops::AtOnce => add_top_at_once(random, text, sessions),
    }
}

// A session of one top or more, up to so many.
fn add_session(random: &mut Random, text: &mut Text, tops: Tops, most: u64, sessions: usize)
    requires { 0 < most }
{
    text.add(r#"{"net":"#);
    text.add(pick(random, &NETS));
    text.add(r#","tops":["#);
    add_one(random, text, tops, sessions);
    for _ in 0..random.below(most) {
        text.add(",");
        add_one(random, text, tops, sessions);
    }
    text.add("]}");
}

/// A script of two to six sessions, with at most three tops each and eight together, or of one or
/// two with one or two tops that run bodies at once: the checker's time grows with the fourth power
/// of the history's length.
pub fn make_script(alloc: Global, random: &mut Random, tops: Tops) -> Result<String, AllocError> {
    let (others, most) = match tops {
        Tops::InTurn => {
            let others = random.below(5) + 1;
            (others, (8 / (others + 1)).clamp(1, 3))
        }
        Tops::AtOnce => (random.below(2), 2),
    };
    let sessions = others as usize + 1;
    let mut text = Text::new(alloc);
    text.add(RECORDS);
    add_session(random, &mut text, tops, most, sessions);
    for _ in 0..others {
        text.add(",");
        add_session(random, &mut text, tops, most, sessions);
    }
    text.add("]}");
    text.whole()
}
