// The reader of an answer's pieces.

ghost use Rattle.std.specs.Prelude.{◌≡◌, ◌⊎◌, ℕ, ◌+◌, ◌<◌, ◌≤◌, [], ◌∷◌, List, IfOk, OnErr, OnOk, false, true, length, take};
ghost use Rattle.sby_edge.specs.Cause.{Rose};
ghost use Rattle.net_link.specs.Frame.{payload};
ghost use Rattle.net_answer.specs.Piped.{Goes, stage_of};

use net_link::Link;
use sby_edge::Failed;

// The longest piece.
const MOST: u32 = 65536;

// Reads the bytes of the pieces of an answer, up to its mark, a length above 65,536 or the link's end.
#[derive(Drop)]
pub(crate) struct AnswerReader<L: Link + Drop> {
    link: L,
    // The bytes of the next piece's length, of which `got` are there.
    head: [u8; 4],
    got: usize,
    // How many bytes of the piece are left.
    left: u32,
    is_over: bool,
    ghost head_fits: { got < 4 },
    ghost left_fits: { left ≤ 65536 },
    ghost apart: { 0 < left → got ≡ 0 },
}

impl<L: Link + Drop> AnswerReader<L> {
    // A reader that has read nothing of the answer.
    pub(crate) fn new(link: L) -> Self
        ensures fresh { (result.link ≡ link) × (result.got ≡ 0) × (result.left ≡ 0) × (result.is_over ≡ false) }
    {
        AnswerReader {
            link,
            head: [0; 4],
            got: 0,
            left: 0,
            is_over: false,
        }
    }

    // One byte more of the length of the next piece.
    fn take_byte(&mut self, byte: u8)
        requires { (self.old.left ≡ 0) × (self.old.is_over ≡ false) }
        ensures payload { (rest : List ℕ) → payload (stage_of self.old.is_over self.old.head self.old.got self.old.left) (byte ∷ rest)
            ≡ payload (stage_of self.new.is_over self.new.head self.new.got self.new.left) rest }
        ensures on { (self.new.is_over ≡ true) ⊎ ((0 < self.new.left) ⊎ (self.new.got ≡ self.old.got + 1)) }
        ensures link { self.new.link ≡ self.old.link }
    {
        self.head[self.got] = byte;
        if self.got < 3 {
            self.got += 1;
            return;
        }
        self.got = 0;
        let size = u32::from_be_bytes(self.head);
        if size == 0 || MOST < size {
            self.is_over = true;
        } else {
            self.left = size;
        }
    }

    // Reads one byte of the length of the next piece.
    fn read_head(&mut self) -> Result<(), Failed>
        requires { (self.old.left ≡ 0) × (self.old.is_over ≡ false) }
        ensures payload { OnOk result (Goes (L.left self.old.link) (L.left self.new.link) (stage_of self.old.is_over self.old.head self.old.got self.old.left) (stage_of self.new.is_over self.new.head self.new.got self.new.left) []) }
        ensures on { OnOk result ((self.new.is_over ≡ true) ⊎ ((0 < self.new.left) ⊎ (self.new.got ≡ self.old.got + 1))) }
        ensures same { OnErr result (Goes (L.left self.old.link) (L.left self.new.link) (stage_of self.old.is_over self.old.head self.old.got self.old.left) (stage_of self.new.is_over self.new.head self.new.got self.new.left) []) }
        ensures written { L.written self.new.link ≡ L.written self.old.link }
        ensures still { OnOk result (L.faults self.new.link ≡ L.faults self.old.link) }
        ensures failed { OnErr result (Rose (L.faults self.old.link) (L.faults self.new.link)) }
    {
        let mut byte = [0u8; 1];
        let count = self.link.read(&mut byte)?;
        if count == 0 {
            self.is_over = true;
            return Ok(());
        }
        self.take_byte(byte[0]);
        Ok(())
    }

    // Reads into the front of the buffer, and answers how many bytes: 0 only where none is left of the answer.
    #[tactic(auto, using(crate::proofs::Stages::goes_none, crate::proofs::Stages::goes_then, crate::proofs::Stages::goes_read, crate::proofs::Stages::goes_shut))]
    pub(crate) fn read(&mut self, buf: &mut [u8]) -> Result<usize, Failed>
        requires { 0 < length buf.old }
        ensures gives { IfOk result (λ count. Goes (L.left self.old.link) (L.left self.new.link) (stage_of self.old.is_over self.old.head self.old.got self.old.left) (stage_of self.new.is_over self.new.head self.new.got self.new.left) (take count buf.new)) }
        ensures same { OnErr result (Goes (L.left self.old.link) (L.left self.new.link) (stage_of self.old.is_over self.old.head self.old.got self.old.left) (stage_of self.new.is_over self.new.head self.new.got self.new.left) []) }
        ensures out { IfOk result (λ count. count ≡ 0 → self.new.is_over ≡ true) }
        ensures fits { IfOk result (λ count. count ≤ length buf.old) }
        ensures room { length buf.new ≡ length buf.old }
        ensures written { L.written self.new.link ≡ L.written self.old.link }
        ensures still { IfOk result (λ _. L.faults self.new.link ≡ L.faults self.old.link) }
        ensures failed { OnErr result (Rose (L.faults self.old.link) (L.faults self.new.link)) }
    {
        for _ in 0..4usize {
            if self.is_over || self.left > 0 {
                break;
            }
            self.read_head()?;
        }
        if self.is_over {
            return Ok(0);
        }
        let most = buf.len().min(self.left as usize);
        let (front, _) = buf.split_at_mut(most);
        let count = self.link.read(front)?;
        if count == 0 {
            self.is_over = true;
            return Ok(0);
        }
        self.left -= count as u32;
        Ok(count)
    }
}
