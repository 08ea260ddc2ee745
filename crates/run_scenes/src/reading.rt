// Scenes, read from their lines.

use crate::child::Child;
use crate::scene::{Placed, Scene};
use crate::texts::{Named, owned, push_text, text_of};
use std::alloc::{AllocError, Global};

/// The scene of the lines of two texts; None where a line isn't one of a scene. The lines are:
///
/// - `file PATH TEXT`: a file before the run; `words WORD ..`: the words;
/// - `fail N`, `cut N`: the Nth call of the file store, or of the sink, fails;
/// - `clock N`: the clock reads 0, then 400, then N from then on; `child PART=VALUE;..`: a child;
/// - `rc N`: the exit status; `> TEXT`: a line that is printed; `lines TEXT`: whole lines that are printed;
/// - `first N`: only the first N lines so far are printed;
/// - `left PATH TEXT`, `missing PATH`: what stands there after the run;
/// - `starts WORD ..`: a child is started with these words.
pub fn read_scene(
    alloc: Global,
    names: &[Named],
    head: &str,
    text: &str,
) -> Result<Option<Scene>, AllocError> {
    match read_lines(alloc, Scene::new(alloc), names, head)? {
        Some(scene) => read_lines(alloc, scene, names, text),
        None => Ok(None),
    }
}

// Adds the lines of a text to a scene; None where a line isn't one of a scene.
fn read_lines(
    alloc: Global,
    scene: Scene,
    names: &[Named],
    text: &str,
) -> Result<Option<Scene>, AllocError> {
    let mut scene = scene;
    for line in text.split('\n') {
        let (key, rest) = line.split_once(' ').unwrap_or((line, ""));
        if !read_line(alloc, &mut scene, names, key, rest)? {
            return Ok(None);
        }
    }
    Ok(Some(scene))
}

fn read_line(
    alloc: Global,
    scene: &mut Scene,
    names: &[Named],
    key: &str,
    rest: &str,
) -> Result<bool, AllocError> {
    match key {
        "" => return Ok(rest.is_empty()),
        "file" => scene.files.push(placed(alloc, names, rest)?)?,
        "words" => scene.words = owned(alloc, rest)?,
        "left" => scene.left.push(placed(alloc, names, rest)?)?,
        "missing" => scene.missing.push(String::from_str(alloc, rest)?)?,
        "starts" => scene.starts.push(String::from_str(alloc, rest)?)?,
        "child" => return read_child(alloc, scene, names, rest),
        ">" => {
            push_text(&mut scene.printed, names, rest)?;
            scene.printed.push(b'\n')?;
        }
        "lines" => push_text(&mut scene.printed, names, rest)?,
        _ => return read_number(scene, key, rest),
    }
    Ok(true)
}

fn placed(alloc: Global, names: &[Named], rest: &str) -> Result<Placed, AllocError> {
    let (path, text) = rest.split_once(' ').unwrap_or((rest, ""));
    Ok(Placed {
        path: String::from_str(alloc, path)?,
        bytes: text_of(alloc, names, text)?,
    })
}

fn read_child(
    alloc: Global,
    scene: &mut Scene,
    names: &[Named],
    rest: &str,
) -> Result<bool, AllocError> {
    match Child::read(rest) {
        None => Ok(false),
        Some(child) => {
            scene.scripts.push(child.scripted(alloc, names)?)?;
            Ok(true)
        }
    }
}

// A line of a key and a number.
fn read_number(scene: &mut Scene, key: &str, rest: &str) -> Result<bool, AllocError> {
    let Ok(n) = rest.parse::<u64>() else {
        return Ok(false);
    };
    match key {
        "fail" => scene.failing.push(n)?,
        "cut" => scene.cut.push(n)?,
        "clock" => scene.last = Some(n),
        "rc" => scene.rc = u8::try_from(n).unwrap_or(u8::MAX),
        "first" => {
            let count = first_lines(&scene.printed, n);
            scene.printed.truncate(count);
        }
        _ => return Ok(false),
    }
    Ok(true)
}

// How many bytes the first lines have.
fn first_lines(bytes: &[u8], lines: u64) -> usize {
    let mut count = 0usize;
    let mut left = lines;
    for b in bytes {
        if left == 0 {
            break;
        }
        count = count.saturating_add(1);
        if *b == b'\n' {
            left -= 1;
        }
    }
    count
}
