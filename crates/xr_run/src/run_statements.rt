//! Carries out the statements of a script in order.
ghost use Rattle.std.specs.Prelude.{◌≡◌, map, IsTrue};
ghost use denote.Param.Send.{IsSync};
ghost use Rattle.xr_syntax.specs.Syntax.{line_of};
ghost use Rattle.xr_runs.specs.Runs.{run_from, start};
ghost use Rattle.xr_run.specs.Broken.{Left};
ghost use Rattle.xr_run.specs.Ends.{Ends, IsNamedEnd, StatementsKeep, StatusTallied, Untouched, status_of};
ghost use Rattle.xr_run.specs.Named.{names_of, AreNamesIn};

use crate::names::NameMap;
use crate::step::step;
use crate::stopped::Stopped;
use graph_pool::{Gate, Pool, Settings};
use plan_core::Plan;
use plan_live::Gains;
use std::alloc::Global;
use std::thread::Threads;
use xr_outside::{Sink, Store};
use xr_syntax::Statement;
use xr_types::Status;
use xr_values::Cx;

// How a run ends that stops at the statement of this number.
fn status_of(stopped: Stopped, number: u32) -> Status
    ensures { result ≡ status_of stopped number }
{
    match stopped {
        Stopped::Refused(fault) => Status::Refused(number, fault),
        Stopped::Storage => Status::Storage,
        Stopped::NoMemory => Status::NoMemory,
    }
}

// Once the plan has gained much, it gives up what no name reaches. All names stand for what they stood for.
fn forget_others(alloc: Global, names: &NameMap, plan: &mut Plan, gains: &mut Gains)
    requires { AreNamesIn plan.old names.now }
    ensures same { names_of plan.new names.now ≡ names_of plan.old names.now }
    ensures inside { AreNamesIn plan.new names.now }
{
    if gains.is_time(plan) {
        names.forget_others(alloc, plan);
    }
}

/// Carries out the statements in order, up to the first that is refused.
pub(crate) fn run_statements<R: Threads + Sync, S: Store, O: Sink, G: Gate>(
    rt: &R,
    alloc: Global,
    statements: &[Statement],
    store: &mut S,
    out: &mut O,
    gate: &G,
) -> Status
    requires sync { IsSync R.row }
    ensures ends { IsTrue (S.tells store.old) → Ends (run_from 1 (map line_of statements.now) (start (S.held store.old))) (S.held store.new) (O.tells out.old) (O.taken out.old) (O.taken out.new) result }
    ensures left { IsTrue (S.tells store.old) → Left (map line_of statements.now) (S.held store.old) (S.held store.new) (O.tells out.old) (O.taken out.old) (O.taken out.new) }
    ensures keeps { IsTrue (S.tells store.old) → StatementsKeep (map line_of statements.now) (S.held store.old) (S.held store.new) }
    ensures store_tells { S.tells store.new ≡ S.tells store.old }
    ensures out_tells { O.tells out.new ≡ O.tells out.old }
    ensures named { IsNamedEnd result }
    ensures begun { Untouched (O.taken out.old) (O.taken out.new) result }
    ensures tallied { StatusTallied (S.faults store.old) (S.faults store.new) (O.faults out.old) (O.faults out.new) result }
{
    let mut names = NameMap::new(alloc);
    let mut cx = Cx {
        plan: Plan::new(alloc),
        compute: Pool {
            settings: Settings::new(),
            gate,
        },
    };
    let mut gains = Gains::new();
    for (i, statement) in statements.iter().enumerate() {
        // No script has more statements than such a number counts.
        let Ok(number) = u32::try_from(i + 1) else {
            return Status::NoMemory;
        };
        match step(rt, alloc, statement, &mut names, store, out, &mut cx) {
            Ok(()) => forget_others(alloc, &names, &mut cx.plan, &mut gains),
            Err(stopped) => return status_of(stopped, number),
        }
    }
    Status::Done
}
