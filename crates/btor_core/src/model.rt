//! Models: lines in file order, and the bits of their constants.

ghost use Rattle.std.specs.Prelude.{◌≡◌, ◌<◌, ◌≤◌, ◌-◌, ◌^◌, [], ◌∷◌, ◌++◌, length, All, OnErr, OnOk};
ghost use Rattle.btor_core.specs.Fits.{IsBtor, IsWidth, LineFits};
ghost use Rattle.btor_core.specs.Shape.{sort_at};
ghost use Rattle.btor_core.specs.declared.line.Body.TheVariants.{Value};
ghost use Rattle.btor_core.specs.declared.line.Node.TheVariants.{Const};

use crate::line::{Body, Line, Node};
use std::alloc::{AllocError, Global};
use std::marker::Model;

/// Lines of which each fits those before it.
#[derive(Drop)]
pub struct BtorModel {
    lines: Vec<Line>,
    constants: Vec<bool>,
}

impl Model for BtorModel {
    ghost use Rattle.btor_core.specs.Shape.{BtorOf};
    ghost use Rattle.btor_core.specs.Fits.{IsBtor};

    ghost Value = { BtorOf };

    ghost view = { λ m. record { lines = m.lines.items; constants = m.constants.items } };

    ghost invariant = { λ m. IsBtor (record { lines = m.lines.items; constants = m.constants.items }) };
}

impl BtorModel {
    /// A model without lines.
    pub fn new(alloc: Global) -> BtorModel
        ensures { result ≡ record { lines = []; constants = [] } }
    {
        BtorModel {
            lines: Vec::new(alloc),
            constants: Vec::new(alloc),
        }
    }

    /// The lines, in file order.
    pub fn lines(&self) -> &[Line]
        ensures { result.now ≡ self.now.lines }
    {
        &self.lines
    }

    /// The bits of all constants, in which a constant's line names its first.
    pub fn constants(&self) -> &[bool]
        ensures { result.now ≡ self.now.constants }
    {
        &self.constants
    }

    /// What holds of all models.
    pub fn promise(&self)
        ensures { IsBtor self.now }
    {
        let _ = &self.lines;
    }

    /// Adds a line after the others, which is no constant's: there is no bit for one. If memory runs out, the model is as it was.
    pub fn push(&mut self, line: Line) -> Result<(), AllocError>
        requires { LineFits self.old.constants self.old.lines line }
        ensures ok { OnOk result (self.new ≡ record self.old { lines = self.old.lines ++ line ∷ [] }) }
        ensures err { OnErr result (self.new ≡ self.old) }
    {
        self.lines.push(line)?;
        Ok(())
    }

    /// Adds a constant's line after the others, of a sort that is as wide, and its bits, the lowest first. If memory runs out, the model
    /// is as it was.
    pub fn push_constant(&mut self, nid: u32, sort: u32, bits: &[bool]) -> Result<(), AllocError>
        requires some { 1 ≤ nid }
        requires limit { nid < 2 ^ 32 - 1 }
        requires rises { All (λ k. k.nid < nid) self.old.lines }
        requires width { IsWidth (length bits.now) }
        requires sort { sort_at self.old.lines sort ≡ length bits.now }
        requires room { length self.old.constants < 2 ^ 32 }
        ensures ok { OnOk result (self.new ≡ record {
          lines = self.old.lines ++ record { nid = nid; body = Value sort (length bits.now) (Const (length self.old.constants)) } ∷ [];
          constants = self.old.constants ++ bits.now;
        }) }
        ensures err { OnErr result (self.new ≡ self.old) }
    {
        let start = self.constants.len();
        self.constants.extend_from_slice(bits)?;
        let node = Node::Const(start as u32);
        let line = Line {
            nid,
            body: Body::Value(sort, bits.len() as u32, node),
        };
        match self.lines.push(line) {
            Ok(()) => Ok(()),
            Err(_) => {
                self.constants.truncate(start);
                Err(AllocError)
            }
        }
    }
}
