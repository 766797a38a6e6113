// Rollback: events are undone, removed and added, with all that follows from it.
//
// An undo makes an event unrun again and removes its sends; to remove or add an event first undoes the run events of its target from it on, latest first.
// The three call each other. Each undo lowers the number of run events in the bytes, whatever the bytes are, so they end. And a removal goes on only to a
// lower station than the one whose event is undone (a parent is below its station, and what a station has sent itself is unrun when its latest run event is
// undone), so they are at most n deep.

#![tactic(auto)]

ghost use Rattle.std.specs.Prelude.{◌≡◌, ◌⊎◌, true, ◌+◌, ◌≤◌, ◌<◌};
ghost use Rattle.engine_moves.specs.RunCount.{runs_below};
ghost use Rattle.engine_events.specs.Promises.{AfterHeader};
ghost use Rattle.engine_rollback.specs.Promises.{Undoes, UndoesFrom, RemovesBelow, Removes, Adds};

use line::Event;

// The run event of node x, the latest of its station, is undone. Answers how many events are.
#[cycle(remove_below_undo_undo_from)]
fn undo(b: &mut [u8], n: u16, c: u16, x: u16) -> u64
    requires { n ≤ 256 }
    ensures frame { AfterHeader b.old b.new }
    ensures fewer { result + runs_below n b.new c ≤ runs_below n b.old c }
    ensures undoes { Undoes n c b.old x result b.new }
{
    let e = engine_events::event(b, n, x);
    let s = e.target;
    if n <= s {
        return 0;
    }
    let first = engine_events::first_send(b, n, x);
    let second = engine_events::second_send(b, n, x);
    if engine_moves::unrun(b, n, c, x) {
        let k = remove_below(b, n, c, s, first);
        let m = remove_below(b, n, c, s, second);
        return 1 + k + m;
    }
    0
}

// The run events of station s from e on are undone, latest first.
#[cycle(remove_below_undo_undo_from)]
fn undo_from(b: &mut [u8], n: u16, c: u16, s: u16, e: Event) -> u64
    requires { (n ≤ 256) × (s < n) }
    ensures frame { AfterHeader b.old b.new }
    ensures fewer { result + runs_below n b.new c ≤ runs_below n b.old c }
    ensures undoes { UndoesFrom n c b.old s e result b.new }
{
    let mut count: u64 = 0;
    loop {
        let x = engine_ends::last_run(b, n, c, s);
        if x == 0 {
            return count;
        }
        if engine_rows::before(b, n, engine_index::slot(n, x), e) {
            return count;
        }
        let k = undo(b, n, c, x);
        if k == 0 {
            return count;
        }
        count += k;
    }
}

// The event of node x is removed; nothing where x is 0. On to its target only where that is below s.
#[cycle(remove_below_undo_undo_from)]
fn remove_below(b: &mut [u8], n: u16, c: u16, s: u16, x: u16) -> u64
    requires { (n ≤ 256) × (s ≤ n) }
    ensures frame { AfterHeader b.old b.new }
    ensures fewer { result + runs_below n b.new c ≤ runs_below n b.old c }
    ensures nothing { x ≡ 0 → (result ≡ 0) × (b.new ≡ b.old) }
    ensures removes { RemovesBelow n c b.old s x result b.new }
{
    if x == 0 {
        return 0;
    }
    let e = engine_events::event(b, n, x);
    let t = e.target;
    if t < s {
        let k = undo_from(b, n, c, t, e);
        engine_moves::discard(b, n, c, x);
        return k;
    }
    engine_moves::discard(b, n, c, x);
    0
}

// The event of node x is removed. Answers how many events are undone.
pub fn remove(b: &mut [u8], n: u16, c: u16, x: u16) -> u64
    ensures frame { AfterHeader b.old b.new }
    ensures few { result ≤ c }
    ensures removes { Removes n c b.old x result b.new }
{
    if 256 < n {
        return 0;
    }
    remove_below(b, n, c, n, x)
}

// Is no run event of station s from e on?
fn settled(b: &[u8], n: u16, c: u16, s: u16, e: Event) -> bool
    requires { (n ≤ 256) × (s < n) }
    ensures { result ≡ true → UndoesFrom n c b.now s e 0 b.now }
{
    let x = engine_ends::last_run(b, n, c, s);
    if x == 0 {
        return true;
    }
    engine_rows::before(b, n, engine_index::slot(n, x), e)
}

// Does what undo_from does; mostly there is nothing to undo, and a few steps tell.
fn roll_back(b: &mut [u8], n: u16, c: u16, s: u16, e: Event) -> u64
    requires { (n ≤ 256) × (s < n) }
    ensures frame { AfterHeader b.old b.new }
    ensures fewer { result + runs_below n b.new c ≤ runs_below n b.old c }
    ensures undoes { UndoesFrom n c b.old s e result b.new }
{
    if settled(b, n, c, s, e) {
        return 0;
    }
    undo_from(b, n, c, s, e)
}

// What adding an event answers: its node, and how many events are undone.
#[derive(Clone, Copy)]
pub struct Added {
    pub node: u16,
    pub undone: u64,
}

// An event is added. Nothing is done, and the answer is 0 and 0, where its target is n or more, or n over 256.
pub fn add(b: &mut [u8], n: u16, c: u16, e: Event) -> Added
    ensures frame { AfterHeader b.old b.new }
    ensures few { result.undone ≤ c }
    ensures adds { Adds n c b.old e result.node result.undone b.new }
    ensures none { (n ≤ e.target) ⊎ (256 < n) → (result.node ≡ 0) × (result.undone ≡ 0) × (b.new ≡ b.old) }
{
    let t = e.target;
    if n <= t || 256 < n {
        return Added { node: 0, undone: 0 };
    }
    let undone = roll_back(b, n, c, t, e);
    let node = engine_moves::hold(b, n, c, e);
    Added { node, undone }
}
