// What each path of a store in memory has.

ghost use Rattle.std.specs.Prelude.{◌≡◌, OnErr, OnOk, option_copied};
ghost use Rattle.std.specs.FinMap as map;
ghost use Rattle.sby_edge.specs.Files.{put_at};
ghost use Rattle.sby_edge.specs.Memory.{store_of};

use std::alloc::{AllocError, Global};
use std::collections::BTreeMap;
use std::marker::Model;

#[derive(Drop)]
pub struct Contents {
    by_path: BTreeMap<String, Vec<u8>>,
}

impl Model for Contents {
    ghost use Rattle.sby_edge.specs.Memory.{ContentsOf, contents_code, contents_of};

    ghost Value = { ContentsOf };

    ghost coded = { contents_code };

    ghost view = { λ c. contents_of c.by_path };
}

impl Contents {
    pub fn new(alloc: Global) -> Self
        ensures { result ≡ map.empty }
    {
        Contents {
            by_path: BTreeMap::new(alloc),
        }
    }

    pub fn get(&self, path: &str) -> Option<&[u8]>
        ensures { option_copied result ≡ store_of self.now path.now }
    {
        match self.by_path.get(path) {
            Some(content) => Some(content),
            None => None,
        }
    }

    pub fn put(&mut self, alloc: Global, path: &str, content: Vec<u8>) -> Result<(), AllocError>
        ensures ok { OnOk result (store_of self.new ≡ put_at path.now content.items (store_of self.old)) }
        ensures err { OnErr result (self.new ≡ self.old) }
    {
        let key = String::from_str(alloc, path)?;
        self.by_path.insert(key, content)?;
        Ok(())
    }
}
