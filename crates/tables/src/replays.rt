// The climb of a branch question: the word runs downward while the climb goes up. So the climb remembers its moves, and
// one state is carried down through them, from the last to the first: one entry of each move's map is read. On tables as
// built a climb has at most 45 moves, fewer than are remembered at a time. A longer one, on other tables, is made in
// parts, with a map from the part's top to the start of the climb.
ghost use Rattle.std.specs.Prelude.{◌≡◌};
ghost use Rattle.tables.specs.node_tables.Cells.{cell_forest};
ghost use Rattle.tables.specs.node_tables.inner.MoveAnswers.{MoveArgs};
ghost use Rattle.tables.specs.Climbs.{below, climbed_of};
ghost use Rattle.tables.specs.Replays.{state_move, carry_down, replay_on};
ghost use Rattle.tables.specs.inner.Remembered.{move_of, remembered, Noted, Noticed, entry_of, Folded};
ghost use Rattle.tables.specs.inner.Remembered.{NoteArgs, StateArgs, RememberArgs, FoldArgs, ReplayArgs};

use crate::answers::{Climbed, Reached};
use crate::node_tables::moves::{NextMove, depth_at, next_move};
use formats::limits::STATE_LIMIT;

// How many moves are remembered at a time.
const KEPT_MOVES: usize = 48;

// No state: above every state of a table.
const NO_STATE: u8 = 255;

// One move, remembered as twice its node, and 1 more where it is by the jump; and the node that it leads to. Or that
// there is none.
#[derive(Clone, Copy)]
pub struct Note {
    pub ok: bool,
    pub code: u32,
    pub node: usize,
}

// The moves of a climb that were remembered: how many, and the node that they lead to. Or that the climb does not go
// on.
#[derive(Clone, Copy)]
pub struct Part {
    pub ok: bool,
    pub count: usize,
    pub node: usize,
}

// The next move from node v to depth `to`.
fn note_move(node_table: &[u16], n: usize, v: usize, to: usize) -> Note
    requires { MoveArgs n node_table.now v }
    ensures { Noted (cell_forest n node_table.now) v to result }
{
    match next_move(node_table, n, v, to) {
        NextMove::Jump(j) => Note {
            ok: true,
            code: (v * 2 + 1) as u32,
            node: j,
        },
        NextMove::Parent(p) => Note {
            ok: true,
            code: (v * 2) as u32,
            node: p,
        },
        NextMove::Stuck => Note {
            ok: false,
            code: 0,
            node: 0,
        },
    }
}

// The climb from node `from` to depth `to`, or its first 48 moves, remembered in `moves`.
fn remember_moves(moves: &mut [u32], node_table: &[u16], n: usize, from: usize, to: usize) -> Part
    requires { NoteArgs n moves.old node_table.now from }
    ensures { Noticed n node_table.now from to moves.new result }
{
    let mut v = from;
    for count in 0..KEPT_MOVES {
        if depth_at(node_table, v) <= to {
            return Part {
                ok: true,
                count,
                node: v,
            };
        }
        let x = note_move(node_table, n, v, to);
        if !x.ok {
            return Part {
                ok: false,
                count: 0,
                node: from,
            };
        }
        moves[count] = x.code;
        v = x.node;
    }
    Part {
        ok: true,
        count: KEPT_MOVES,
        node: v,
    }
}

// What a remembered move makes of state q, downwards; S or above where a value read leads outside.
fn move_state(
    labels: &[u8],
    steps: &[u8],
    state_table: &[u8],
    n: usize,
    s: usize,
    k: usize,
    code: usize,
    q: usize,
) -> usize
    requires { StateArgs n s k labels.now steps.now state_table.now code q }
    ensures { below s result ≡ state_move s k labels.now steps.now
        state_table.now (move_of code) q }
{
    let v = code / 2;
    if code % 2 == 1 {
        return state_table[v * (s + 1) + (1 + q)] as usize;
    }
    let a = labels[v] as usize;
    if k <= a {
        return s;
    }
    steps[q * k + a] as usize
}

// What the first `count` remembered moves make of state q, from the last to the first; S or above where there is none.
fn replay(
    moves: &[u32],
    count: usize,
    labels: &[u8],
    steps: &[u8],
    state_table: &[u8],
    n: usize,
    s: usize,
    k: usize,
    q: usize,
) -> usize
    requires { RememberArgs n s k moves.now count labels.now steps.now state_table.now q }
    ensures { below s result ≡ carry_down
        (state_move s k labels.now steps.now state_table.now)
        (remembered moves.now count) q }
{
    let mut x = q;
    for i in (0..count).rev() {
        let y = move_state(labels, steps, state_table, n, s, k, moves[i] as usize, x);
        if s <= y {
            return s;
        }
        x = y;
    }
    x
}

// Entry x of a map; 255, which is no state, where x is none.
fn entry_of(map: &[u8], s: usize, x: usize) -> u8
    requires { FoldArgs s map.now }
    ensures { entry_of s map.now x result }
{
    if s <= x {
        return NO_STATE;
    }
    map[x]
}

// The map after the remembered moves: what they make of each state, and then the map.
fn fold_moves(
    map: &[u8],
    moves: &[u32],
    count: usize,
    labels: &[u8],
    steps: &[u8],
    state_table: &[u8],
    n: usize,
    s: usize,
    k: usize,
) -> [u8; STATE_LIMIT]
    requires { FoldArgs s map.now × RememberArgs n s k moves.now count labels.now steps.now
        state_table.now 0 }
    ensures { Folded s map.now (carry_down (state_move s k labels.now steps.now
        state_table.now) (remembered moves.now count)) s result }
{
    let mut out = [NO_STATE; STATE_LIMIT];
    for q in 0..s {
        let x = replay(moves, count, labels, steps, state_table, n, s, k, q);
        out[q] = entry_of(map, s, x);
    }
    out
}

// A climb of any number of moves, by parts.
fn replay_parts(
    labels: &[u8],
    steps: &[u8],
    node_table: &[u16],
    state_table: &[u8],
    n: usize,
    s: usize,
    k: usize,
    from: usize,
    to: usize,
    q: usize,
) -> Climbed
    requires { ReplayArgs n s k labels.now steps.now node_table.now state_table.now from q }
    ensures { result ≡ climbed_of (replay_on n s k labels.now steps.now
        node_table.now
        state_table.now from to q) }
{
    let mut map: [u8; STATE_LIMIT] = [0, 1, 2, 3, 4, 5, 6, 7, 8, 9, 10, 11, 12, 13, 14, 15];
    let mut moves = [0u32; KEPT_MOVES];
    let mut v = from;
    let mut links: u32 = 0;
    while to < depth_at(node_table, v) {
        let x = remember_moves(&mut moves, node_table, n, v, to);
        if !x.ok {
            return Climbed::OutOfRange;
        }
        let c = x.count;
        map = fold_moves(&map, &moves, c, labels, steps, state_table, n, s, k);
        v = x.node;
        links += c as u32;
    }
    let y = map[q];
    if s as u8 <= y {
        return Climbed::OutOfRange;
    }
    let passed = depth_at(node_table, from) - depth_at(node_table, v);
    Climbed::Reached(Reached {
        state: y,
        links,
        passed: passed as u32,
    })
}

// The climb from node `from` to depth `to`, and state q carried down through its moves: the state at `from`, the links,
// and the nodes passed over.
pub fn replay_climb(
    labels: &[u8],
    steps: &[u8],
    node_table: &[u16],
    state_table: &[u8],
    n: usize,
    s: usize,
    k: usize,
    from: usize,
    to: usize,
    q: usize,
) -> Climbed
    requires { ReplayArgs n s k labels.now steps.now node_table.now state_table.now from q }
    ensures { result ≡ climbed_of (replay_on n s k labels.now steps.now
        node_table.now
        state_table.now from to q) }
{
    let mut moves = [0u32; KEPT_MOVES];
    let x = remember_moves(&mut moves, node_table, n, from, to);
    if !x.ok {
        return Climbed::OutOfRange;
    }
    let v = x.node;
    if to < depth_at(node_table, v) {
        return replay_parts(labels, steps, node_table, state_table, n, s, k, from, to, q);
    }
    let c = x.count;
    let y = replay(&moves, c, labels, steps, state_table, n, s, k, q);
    if s <= y {
        return Climbed::OutOfRange;
    }
    let passed = depth_at(node_table, from) - depth_at(node_table, v);
    Climbed::Reached(Reached {
        state: y as u8,
        links: c as u32,
        passed: passed as u32,
    })
}
