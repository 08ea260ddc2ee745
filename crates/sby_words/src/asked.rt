// What the words ask, by their form.

use sby_terms::Mode;
use std::marker::Model;

/// `--judge DESIGN MODE DEPTH [STREAM ..]`: what judges stored streams.
#[derive(Drop)]
pub struct JudgeWords {
    /// The work folder: DIR where it is given, else DESIGN without a final `.il` or `.rtlil`. It isn't empty.
    pub folder: String,
    /// The design's path.
    pub design: String,
    pub mode: Mode,
    /// How many cycles, from 1 to `MAX_DEPTH`.
    pub depth: u32,
    /// The paths of the streams, in the order of the jobs.
    pub streams: Vec<String>,
}

impl Model for JudgeWords {
    ghost use Rattle.std.specs.Prelude.{map, string_bytes};
    ghost use Rattle.sby_words.specs.Requests.{JudgeRequest};

    ghost Value = { JudgeRequest };

    ghost view = { λ a. record {
      folder = string_bytes a.folder;
      design = string_bytes a.design;
      mode = a.mode;
      depth = a.depth;
      streams = map string_bytes a.streams.items;
    } };
}

/// `FILE.sby [TASK ..]`: what runs tasks of a file.
#[derive(Drop)]
pub struct TaskWords {
    /// DIR where it is given. It isn't empty.
    pub directory: Option<String>,
    /// How many children may run at a time, from 1 to 64, where it is given. Then the tasks run at the same time.
    pub jobs: Option<u32>,
    /// The task file's path. Without a final `.sby` it isn't empty.
    pub file: String,
    /// The names of the tasks in the order of the words, and none where all tasks are asked.
    pub names: Vec<String>,
}

impl Model for TaskWords {
    ghost use Rattle.std.specs.Prelude.{map, option_map, string_bytes};
    ghost use Rattle.sby_words.specs.Requests.{TaskRequest};

    ghost Value = { TaskRequest };

    ghost view = { λ a. record {
      directory = option_map string_bytes a.directory;
      jobs = a.jobs;
      file = string_bytes a.file;
      names = map string_bytes a.names.items;
    } };
}

/// `--gen N`: what runs the generated task file of that size.
#[derive(Drop)]
pub struct GenWords {
    /// DIR where it is given. It isn't empty.
    pub directory: Option<String>,
    /// N, from 2 to 10,000.
    pub size: u32,
}

impl Model for GenWords {
    ghost use Rattle.std.specs.Prelude.{option_map, string_bytes};
    ghost use Rattle.sby_words.specs.Requests.{GenRequest};

    ghost Value = { GenRequest };

    ghost view = { λ a. record {
      directory = option_map string_bytes a.directory;
      size = a.size;
    } };
}

/// What the words ask.
#[derive(Drop)]
pub enum Asked {
    /// `--judge DESIGN MODE DEPTH [STREAM ..]`
    Judge(JudgeWords),
    /// `FILE.sby [TASK ..]`
    Tasks(TaskWords),
    /// `--dumptasks FILE.sby`: the task file's path. Without a final `.sby` it isn't empty.
    Names(String),
    /// `--gen N`
    Gen(GenWords),
}
