// What a child is going to do, where a yard tells it.

use std::marker::Model;

/// How a child ended.
#[derive(Clone, Copy, Debug, PartialEq, Eq)]
pub enum Exit {
    Code(u8),
    Signal,
}

/// A kind of call that a script can make fail.
#[derive(Clone, Copy, Debug, PartialEq, Eq)]
pub enum Call {
    Start,
    Read,
    Poll,
    Kill,
    Reap,
}

/// A call that fails: the `nth` of its kind, counted from 1.
#[derive(Clone, Copy, Debug, PartialEq, Eq)]
pub struct CallFault {
    pub call: Call,
    pub nth: u32,
}

/// A second child, that of `lane` of `task` (the child's own task where none is named) for the same job. The first read waits until both children have been live at one moment, for at
/// most `turns` turns; if that moment doesn't come, the stream is `instead`.
#[derive(Drop, Debug)]
pub struct Gate {
    pub task: Option<u32>,
    pub lane: u32,
    pub turns: u64,
    pub instead: Vec<u8>,
}

impl Model for Gate {
    ghost use Rattle.sby_edge.specs.Script.{GateOf};

    ghost Value = { GateOf };

    ghost view = { λ g. record { task = g.task; lane = g.lane; turns = g.turns; instead = g.instead.items } };
}

/// What a child does: its stream, after how many bytes of it the child stalls until it is killed, its gate, its exit, the calls that
/// fail, the byte at which a read that begins before it ends, and the proof file that it leaves.
#[derive(Drop, Debug)]
pub struct Script {
    pub bytes: Vec<u8>,
    pub stalls: Option<u64>,
    pub gate: Option<Gate>,
    pub exit: Exit,
    pub faults: Vec<CallFault>,
    pub cut: Option<u64>,
    pub proof: Vec<u8>,
}

impl Model for Script {
    ghost use Rattle.sby_edge.specs.Script.{ScriptOf};

    ghost Value = { ScriptOf };

    ghost view = { λ s. record {
      bytes = s.bytes.items;
      stalls = s.stalls;
      gate = s.gate;
      exit = s.exit;
      faults = s.faults.items;
      cut = s.cut;
      proof = s.proof.items;
    } };
}
