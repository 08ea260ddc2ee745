// A lane of a `net` line: what its child is started with.

use super::task_tests::{clock_of, race_over};
use super::tests::{Kind, TURNS, engines_of, net_words, problem_of, script_of};
use sby_edge::{
    Fail as EdgeFail, Failed, FileReader, Got, JobFile, Launch, Memory, ScriptYard, Scripted,
    Source, Stage, Yard, fill,
};
use sby_terms::JobName;
use std::alloc::Global;
use std::sync::Wait;
use std::test::Fail;
use std::time::Clock as SystemClock;
use task_race::Racing;

// The first bytes of a file.
#[derive(Drop)]
struct Front {
    bytes: [u8; 64],
    count: usize,
}

impl Front {
    fn none() -> Self {
        Front {
            bytes: [0; 64],
            count: 0,
        }
    }

    fn bytes(&self) -> Option<&[u8]> {
        self.bytes.get(..self.count)
    }
}

impl FileReader for Front {
    ghost has_read = { λ _ _ _. Unit {0} };

    fn read<S: Source>(&mut self, source: &mut S) {
        self.count = fill(source, &mut self.bytes);
    }
}

// A bay that keeps the front of the file that its last child was started with.
#[derive(Drop)]
struct FileBay<L> {
    bay: L,
    front: Front,
}

impl<L: Launch> Launch for FileBay<L> {
    type Pipe = L::Pipe;

    type Hold = L::Hold;

    ghost told = { λ b. L.told b.bay };

    ghost start_faults = { λ b. L.start_faults b.bay };

    ghost read_faults = { λ b. L.read_faults b.bay };

    ghost hold_faults = { λ b. L.hold_faults b.bay };

    fn start<F: JobFile>(
        &mut self,
        alloc: Global,
        job: JobName,
        words: &[String],
        file: &F,
    ) -> Result<(L::Pipe, L::Hold), EdgeFail> {
        let _read = file.read_by(alloc, &mut self.front);
        self.bay.start(alloc, job, words, file)
    }

    fn proof(
        &mut self,
        alloc: Global,
        job: JobName,
        path: &str,
        most: u64,
    ) -> Result<Got, EdgeFail> {
        self.bay.proof(alloc, job, path, most)
    }

    fn kill(&self, pipe: &L::Pipe, hold: &mut L::Hold) -> Result<(), Failed> {
        self.bay.kill(pipe, hold)
    }

    fn finish(&mut self, pipe: L::Pipe, hold: L::Hold) {
        self.bay.finish(pipe, hold);
    }
}

// A yard of such bays, with what the one that came back last keeps.
#[derive(Drop)]
struct FileYard<Y> {
    yard: Y,
    front: Front,
}

impl<Y: Yard> Yard for FileYard<Y> {
    type Bay = FileBay<Y::Bay>;

    ghost told = { λ y. Y.told y.yard };

    ghost started = { λ y. Y.started y.yard };

    ghost start_faults = { λ y. Y.start_faults y.yard };

    ghost read_faults = { λ y. Y.read_faults y.yard };

    ghost hold_faults = { λ y. Y.hold_faults y.yard };

    fn bay(&mut self, alloc: Global, task: u32, lane: u32) -> Result<FileBay<Y::Bay>, Memory> {
        let bay = self.yard.bay(alloc, task, lane)?;
        Ok(FileBay {
            bay,
            front: Front::none(),
        })
    }

    fn back(&mut self, bay: FileBay<Y::Bay>) {
        let FileBay { bay, front } = bay;
        self.yard.back(bay);
        self.front = front;
    }
}

// The words of the first child of the lane that came back first.
fn first_words<'y, R: Wait + SystemClock>(yard: &'y ScriptYard<'_, R>) -> Option<&'y [String]> {
    let lane = yard.lanes()?.first()?;
    let start = lane.started.first()?;
    Some(start.words.as_slice())
}

#[test]
fn a_net_line_is_started_as_it_stands_with_the_file(rt: HostRuntime) -> Result<(), Fail> {
    let problem = problem_of(rt.alloc(), TURNS, 1)?;
    let engines = engines_of(rt.alloc(), Kind::Net, 1)?;
    let racing = Racing {
        problem: &problem,
        engines: &engines,
        folder: "t",
        task: 0,
        wait: false,
        limit: None,
    };
    let scripts = Vec::<Scripted>::new(rt.alloc());
    let other = script_of(rt.alloc(), "0\n")?;
    let stage = Stage::new(rt.alloc());
    let mut yard = FileYard {
        yard: ScriptYard::new(&rt, rt.alloc(), &stage, &scripts, &other),
        front: Front::none(),
    };
    let clock = clock_of(rt.alloc())?;
    let _ran = race_over(&rt, rt.alloc(), &mut yard, &clock, &racing)?;
    let words = net_words(rt.alloc())?;
    assert_eq!(rt; first_words(&yard.yard), Some(words.as_slice()));
    assert_eq!(rt;
        yard.front.bytes(),
        Some(b"p cnf 1 2\n1 0\n-1 0\n".as_slice())
    );
    Ok(())
}
