//! The words of a run: what a client does, and what becomes of the site.
ghost use Rattle.std.specs.Prelude.{ℕ, ◌≡◌, ◌<◌};
ghost use Rattle.qc_event.specs.Base.{IsProper};
ghost use Rattle.qc_event.specs.History.{Past};
ghost use Rattle.qc_event.specs.Tables.{setting_of};
ghost use Rattle.qc_desk.specs.Rules.{IsClient};
ghost use Rattle.rows_serve.specs.Requests.{Knows};
ghost use Rattle.rows_serve.specs.TwoRecords.{IsOver};

use crate::answer::{served, strange};
use crate::client::{Client, abort, complete, plain, put, replied, set, set_child, told_put};
use crate::commit::commit;
use crate::fold::fold;
use crate::serve::serve;
use crate::served::Served;
use qc_desk::{Desk, Pass, Store};
use qc_disk::HomeDisk;
use qc_event::Val;
use qc_site::Site;
use rows_kit::{Step, bytes, said};
use std::alloc::{AllocError, Global};
use std::fs::OpenOptions;
use std::os::unix::fs::FileExt;
use std::sync::Wait;

/// What a run is given.
#[derive(Drop)]
pub(crate) struct Tools<'a, R> {
    pub(crate) rt: &'a R,
    pub(crate) home: HostRuntime,
    pub(crate) alloc: Global,
}

// The client's request is served.
fn ask<N: Store, R: Wait>(
    tools: &Tools<'_, R>,
    desk: &Desk<N>,
    pass: &mut Pass<N>,
    site: &mut Site<HomeDisk, N, 0>,
    client: &mut Client,
) -> Result<String, AllocError>
    requires client { IsClient pass.old }
    requires over { IsOver N.table N.base }
    requires knows { Knows pass.old.seen pass.old.number client.old }
    ensures same { (pass.new.live ≡ pass.old.live) × (pass.new.number ≡ pass.old.number)
        × (pass.new.out ≡ pass.old.out) }
    ensures knows { Knows pass.new.seen pass.old.number client.new }
{
    let Some(mut request) = client.now else {
        return said(tools.alloc, "no request");
    };
    let answer = serve(tools.rt, desk, pass, site, &mut request);
    client.now = Some(request);
    served(tools.alloc, &answer)
}

// The record of a name; what is none is `y`.
fn record_of(name: &str) -> u8
    ensures { result < 2 }
{
    if name == "x" { 0 } else { 1 }
}

// A new top sets a record, and its first request is served.
fn begin<N: Store, R: Wait>(
    tools: &Tools<'_, R>,
    desk: &Desk<N>,
    pass: &mut Pass<N>,
    site: &mut Site<HomeDisk, N, 0>,
    client: &mut Client,
    step: &Step<'_>,
) -> Result<String, AllocError>
    requires client { IsClient pass.old }
    requires over { IsOver N.table N.base }
    requires knows { Knows pass.old.seen pass.old.number client.old }
    ensures same { (pass.new.live ≡ pass.old.live) × (pass.new.number ≡ pass.old.number)
        × (pass.new.out ≡ pass.old.out) }
    ensures knows { Knows pass.new.seen pass.old.number client.new }
{
    let before = plain(&client.now);
    let rec = record_of(step.word(0));
    let value = Val::number(step.number(1));
    match set(tools.rt, desk, pass, rec, value) {
        Ok(request) => {
            client.now = Some(request);
            client.before = before;
            ask(tools, desk, pass, site, client)
        }
        Err(no) => {
            *client = Client::new();
            no.to_string(tools.alloc)
        }
    }
}

// A new child of the request's user transaction, none deeper than 16, sets a record, and its first request is served.
fn begin_below<N: Store, R: Wait>(
    tools: &Tools<'_, R>,
    desk: &Desk<N>,
    pass: &mut Pass<N>,
    site: &mut Site<HomeDisk, N, 0>,
    client: &mut Client,
    step: &Step<'_>,
) -> Result<String, AllocError>
    requires client { IsClient pass.old }
    requires over { IsOver N.table N.base }
    requires knows { Knows pass.old.seen pass.old.number client.old }
    ensures same { (pass.new.live ≡ pass.old.live) × (pass.new.number ≡ pass.old.number)
        × (pass.new.out ≡ pass.old.out) }
    ensures knows { Knows pass.new.seen pass.old.number client.new }
{
    let Some(request) = client.now else {
        return said(tools.alloc, "no request");
    };
    if request.user.len() >= 16 {
        return said(tools.alloc, "too deep");
    }
    let before = plain(&client.now);
    let rec = record_of(step.word(0));
    let value = Val::number(step.number(1));
    match set_child(tools.rt, desk, pass, &request, rec, value) {
        Ok(next) => {
            client.now = Some(next);
            client.before = before;
            ask(tools, desk, pass, site, client)
        }
        Err(no) => {
            *client = Client::new();
            no.to_string(tools.alloc)
        }
    }
}

// The manager of the client's request puts its value, and that request is served.
fn go_on<N: Store, R: Wait>(
    tools: &Tools<'_, R>,
    desk: &Desk<N>,
    pass: &mut Pass<N>,
    site: &mut Site<HomeDisk, N, 0>,
    client: &mut Client,
) -> Result<String, AllocError>
    requires client { IsClient pass.old }
    requires over { IsOver N.table N.base }
    requires knows { Knows pass.old.seen pass.old.number client.old }
    ensures same { (pass.new.live ≡ pass.old.live) × (pass.new.number ≡ pass.old.number)
        × (pass.new.out ≡ pass.old.out) }
    ensures knows { Knows pass.new.seen pass.old.number client.new }
{
    let Some(request) = client.now else {
        return said(tools.alloc, "no request");
    };
    let Some((writer, tuple)) = replied(&request) else {
        return said(tools.alloc, "nothing to put");
    };
    match put(tools.rt, desk, pass, &request, &writer, &tuple) {
        Ok(next) => {
            client.now = Some(next);
            ask(tools, desk, pass, site, client)
        }
        Err(no) => {
            *client = Client::new();
            no.to_string(tools.alloc)
        }
    }
}

// The manager of the client's request, which has put its value, commits.
fn finish<N: Store, R: Wait>(
    tools: &Tools<'_, R>,
    desk: &Desk<N>,
    pass: &mut Pass<N>,
    client: &mut Client,
) -> Result<String, AllocError>
    requires client { IsClient pass.old }
    requires over { IsOver N.table N.base }
    requires knows { Knows pass.old.seen pass.old.number client.old }
    ensures same { (pass.new.live ≡ pass.old.live) × (pass.new.number ≡ pass.old.number)
        × (pass.new.out ≡ pass.old.out) }
    ensures knows { Knows pass.new.seen pass.old.number client.new }
{
    let Some(request) = client.now else {
        return said(tools.alloc, "no request");
    };
    let Some((putter, tuple)) = told_put(&request) else {
        return said(tools.alloc, "nothing was put");
    };
    client.now = plain(&client.now);
    match complete(tools.rt, desk, pass, &request, &putter, &tuple) {
        Ok(()) => said(tools.alloc, "ok"),
        Err(no) => {
            *client = Client::new();
            no.to_string(tools.alloc)
        }
    }
}

// The user transaction of the client's request commits.
fn settle<N: Store, R: Wait>(
    tools: &Tools<'_, R>,
    desk: &Desk<N>,
    pass: &mut Pass<N>,
    served: &mut Served<N>,
    client: &mut Client,
) -> Result<String, AllocError>
    requires client { IsClient pass.old }
    requires knows { Knows pass.old.seen pass.old.number client.old }
    ensures same { (pass.new.live ≡ pass.old.live) × (pass.new.number ≡ pass.old.number)
        × (pass.new.out ≡ pass.old.out) }
    ensures knows { Knows pass.new.seen pass.old.number client.new }
{
    let Some(request) = client.now else {
        return said(tools.alloc, "no request");
    };
    client.now = plain(&client.now);
    match commit(tools.rt, desk, pass, &mut served.ledger, &request) {
        Ok(Some(logged)) => {
            served.logged.push(logged)?;
            said(tools.alloc, "ok")
        }
        Ok(None) => said(tools.alloc, "ok"),
        Err(no) => {
            *client = Client::new();
            no.to_string(tools.alloc)
        }
    }
}

// The user transaction of the client's request is aborted.
fn give_up<N: Store, R: Wait>(
    tools: &Tools<'_, R>,
    desk: &Desk<N>,
    pass: &mut Pass<N>,
    client: &mut Client,
) -> Result<String, AllocError>
    requires client { IsClient pass.old }
    requires knows { Knows pass.old.seen pass.old.number client.old }
    ensures same { (pass.new.live ≡ pass.old.live) × (pass.new.number ≡ pass.old.number)
        × (pass.new.out ≡ pass.old.out) }
    ensures knows { Knows pass.new.seen pass.old.number client.new }
{
    let Some(request) = client.now else {
        return said(tools.alloc, "no request");
    };
    client.now = plain(&client.now);
    match abort(tools.rt, desk, pass, &request) {
        Ok(()) => said(tools.alloc, "ok"),
        Err(no) => {
            *client = Client::new();
            no.to_string(tools.alloc)
        }
    }
}

// The client goes on with the request before.
fn swap(client: &mut Client)
    ensures { (past : Past) (seat : ℕ) → Knows past seat client.old → Knows past seat client.new }
{
    let before = plain(&client.now);
    client.now = plain(&client.before);
    client.before = before;
}

// Writes bytes into the file of the copy's disk, beside the site, whose disk holds its lock: so it is opened as a plain
// file.
fn spoil(home: HostRuntime, alloc: Global, step: &Step<'_>) -> Result<String, AllocError> {
    let written = bytes(alloc, step.word(2))?;
    let path = format!(in alloc; "{}/1", step.word(0))?;
    let mut options = OpenOptions::new();
    options.write(true);
    let Ok(file) = options.open(&home, path.as_str()) else {
        return said(alloc, "refused");
    };
    match file.write_all_at(&written, step.number(1)) {
        Ok(()) => said(alloc, "ok"),
        Err(_) => said(alloc, "refused"),
    }
}

// What a word of the site does.
fn on_site<N: Store, R: Wait>(
    tools: &Tools<'_, R>,
    desk: &Desk<N>,
    site: &mut Site<HomeDisk, N, 0>,
    name: &str,
) -> Result<String, AllocError>
    requires { IsProper (setting_of N.table N.base) }
{
    match name {
        "crash" => site.crash(),
        "up" => return site.is_up().to_string(tools.alloc),
        "strange" => {
            return match site.strange() {
                Some(why) => strange(tools.alloc, why),
                None => said(tools.alloc, "no"),
            };
        }
        "revive" => {
            if site.is_up() {
                return said(tools.alloc, "it is up");
            }
            if let Err(no) = site.revive(tools.rt, desk) {
                return no.to_string(tools.alloc);
            }
        }
        _ => return said(tools.alloc, "no such word"),
    }
    said(tools.alloc, "ok")
}

/// What a word of a run does.
pub(crate) fn one_word<N: Store, R: Wait>(
    tools: &Tools<'_, R>,
    desk: &Desk<N>,
    pass: &mut Pass<N>,
    served: &mut Served<N>,
    client: &mut Client,
    word: &str,
) -> Result<String, AllocError>
    requires client { IsClient pass.old }
    requires over { IsOver N.table N.base }
    requires knows { Knows pass.old.seen pass.old.number client.old }
    ensures same { (pass.new.live ≡ pass.old.live) × (pass.new.number ≡ pass.old.number)
        × (pass.new.out ≡ pass.old.out) }
    ensures knows { Knows pass.new.seen pass.old.number client.new }
{
    let step = Step::of(tools.alloc, word)?;
    match step.name {
        "set" => begin(tools, desk, pass, &mut served.site, client, &step),
        "child" => begin_below(tools, desk, pass, &mut served.site, client, &step),
        "put" => go_on(tools, desk, pass, &mut served.site, client),
        "again" => ask(tools, desk, pass, &mut served.site, client),
        "done" => finish(tools, desk, pass, client),
        "commit" => settle(tools, desk, pass, served, client),
        "abort" => give_up(tools, desk, pass, client),
        "swap" => {
            swap(client);
            said(tools.alloc, "ok")
        }
        "fold" => fold(tools, desk, pass, served, client),
        "spoil" => spoil(tools.home, tools.alloc, &step),
        name => on_site(tools, desk, &mut served.site, name),
    }
}
