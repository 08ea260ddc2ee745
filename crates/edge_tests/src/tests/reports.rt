// What lanes report and what follows from reports, each call once.

use crate::tests::settled::Given;
use race_core::{
    By, EventList, JobEnd, JobTerms, Judged, Keeper, LaneEvent, LaneState, Outcome, Place, Reader,
    Reason, Report, answer_among, collect, job_at, lane_step, printing_lane,
};
use sby_terms::{Answer, JobName, Mode, Status};
use std::alloc::{AllocError, Global};
use std::test::Fail;

// Lane 1 of two jobs: the first ended with a finding, the second never started.
fn report_of(alloc: Global) -> Result<Report<Given>, AllocError> {
    let mut report = Report::new(alloc, 1, 2)?;
    report.push_end(JobEnd::Found(Given {
        job: JobName::Base(0),
        by: 1,
    }));
    report.push_end(JobEnd::StartFailed);
    Ok(report)
}

fn is_outcome(outcome: &Outcome) -> bool {
    outcome.answers.as_slice() == [Some(Answer::Sat), None].as_slice()
        && outcome.lanes.as_slice() == [Some(1), None].as_slice()
        && outcome.status == Status::Fail
}

#[test]
fn reports_are_collected(rt: HostRuntime) -> Result<(), Fail> {
    let report = report_of(rt.alloc())?;
    assert!(rt; report.lane() == 1 && report.jobs() == 2);
    assert!(rt; report.ends().len() == 2 && report.events().len() == 2);
    let reports = [report];
    assert!(rt; printing_lane(&reports, 0, JobName::Base(0)) == Some(1));
    assert!(rt; answer_among(&reports, job_at(Mode::Prove, 1)).is_none());
    let outcome = collect(rt.alloc(), &reports, Mode::Prove, 2)?;
    assert!(rt; is_outcome(&outcome));
    Ok(())
}

#[test]
fn events_change_their_part(rt: HostRuntime) {
    let terms = JobTerms {
        cell: 0,
        job: JobName::Base(0),
        wait: false,
        start: 5,
        limit: Some(10),
    };
    let mut state: LaneState<Given> = LaneState {
        terms,
        reader: Reader::Fresh,
        keeper: Keeper::Fresh,
        place: Place::Away,
    };
    state = lane_step(state, LaneEvent::Clock(14));
    assert!(rt; matches!(state.keeper, Keeper::Turning));
    state = lane_step(
        state,
        LaneEvent::Read {
            bytes: 9,
            progress: Judged::Unknown,
        },
    );
    assert!(rt; matches!(state.reader, Reader::Unknown { by: By::Bytes }));
    state = lane_step(state, LaneEvent::Clock(15));
    assert!(rt; matches!(state.keeper, Keeper::Due(Reason::Limit(15))));
    state = lane_step(state, LaneEvent::Took);
    assert!(rt;
        state.place == Place::Held && matches!(state.keeper, Keeper::Due(Reason::Limit(15)))
    );
}

// A read that was judged More.
fn more(bytes: u64) -> LaneEvent<Given> {
    LaneEvent::Read {
        bytes,
        progress: Judged::More,
    }
}

#[test]
fn neighbours_share_an_entry(rt: HostRuntime) -> Result<(), Fail> {
    let mut list = EventList::new(rt.alloc(), 1)?;
    list.take_room(6)?;
    list.push(more(3));
    list.push(more(4));
    list.push(more(0));
    list.push(LaneEvent::Turns(u64::MAX - 1));
    list.push(LaneEvent::Turns(1));
    list.push(LaneEvent::Turns(1));
    assert!(rt;
        matches!(
            list.events(),
            [
                LaneEvent::Read { bytes: 7, .. },
                LaneEvent::Read { bytes: 0, .. },
                LaneEvent::Turns(u64::MAX),
                LaneEvent::Turns(1),
            ]
        )
    );
    Ok(())
}

#[test]
fn events_are_put(rt: HostRuntime) -> Result<(), Fail> {
    let alloc = rt.alloc();
    let mut report = Report::<Given>::new(alloc, 0, 2)?;
    report.want_memory(0);
    let reader = EventList::new(alloc, 1)?;
    let mut keeper = EventList::new(alloc, 1)?;
    keeper.push(LaneEvent::Turns(1));
    report.put_events(1, reader, keeper);
    assert!(rt; report.events().iter().all(|job| job.keeper().len() == 1));
    Ok(())
}
