// A design's text with several owners.

ghost use Rattle.std.specs.Prelude.{◌≡◌, [], IfOk};

use std::alloc::{AllocError, Global};
use std::marker::Model;
use std::sync::Arc;

/// A text that its owners share: another owner costs no memory that grows with the text.
#[derive(Drop)]
pub struct Text {
    // None is the empty text.
    bytes: Option<Arc<Vec<u8>, Global>>,
}

impl Model for Text {
    ghost use Rattle.std.specs.Prelude.{List, ℕ};
    ghost use Rattle.judge.specs.Text.{bytes_of};

    ghost Value = { List ℕ };

    ghost view = { λ a. bytes_of a.bytes };
}

impl Text {
    /// The empty text.
    pub fn empty() -> Text
        ensures { result ≡ [] }
    {
        Text { bytes: None }
    }

    /// The text of these bytes.
    pub fn new(alloc: Global, bytes: Vec<u8>) -> Result<Text, AllocError>
        ensures { IfOk result (λ text. text ≡ bytes.items) }
    {
        match Arc::new(alloc, bytes) {
            Ok(bytes) => Ok(Text { bytes: Some(bytes) }),
            Err(_) => Err(AllocError),
        }
    }

    /// The bytes.
    pub fn as_slice(&self) -> &[u8]
        ensures { result.now ≡ self.now }
    {
        match &self.bytes {
            Some(bytes) => bytes.as_slice(),
            None => &[],
        }
    }

    /// Another owner.
    pub fn share(&self) -> Result<Text, AllocError>
        ensures { IfOk result (λ text. text ≡ self.now) }
    {
        match &self.bytes {
            Some(bytes) => {
                let bytes = Arc::try_clone(bytes)?;
                Ok(Text { bytes: Some(bytes) })
            }
            None => Ok(Text::empty()),
        }
    }
}
