//! A bus with two channels and a path from the one to the other.
ghost use Rattle.std.specs.Prelude.{◌≤◌, [], ◌∷◌, length};
ghost use Rattle.hub_core.specs.Groups.{grouped};
ghost use Rattle.hub_core.specs.Plain.{hub_means};
ghost use Rattle.hub_core.specs.View.{empty_view};
ghost use Rattle.bus_worker.specs.Start.{IsBusPlan, IsReady};
ghost use Rattle.bus_worker.specs.Window.{NeverFall};

use bus_worker::{ChannelPlan, Comes, Dated, SourcePlan, Worker};
use can_frame::{CanId, Frame};
use gw_base::{ChanNo, DestNo, GroupNo, Memory, PathNo, Tick};
use hub_core::{DestResult, PlainHub, SessionResult};
use std::alloc::Global;
use std::test::Fail;
use tp_receiver::RxSet;
use tp_sender::TxSet;
use tp_unit::Shape;

/// Flow controls of the first channel.
const CONTROLS: Shape = Shape {
    id: CanId::Std(0x7E8),
    fd: false,
    brs: false,
    address: None,
    dl: 8,
    pad: false,
    fill: 0xCC,
};

/// Data frames of the second channel.
const FRAMES: Shape = Shape {
    id: CanId::Std(0x7F0),
    fd: false,
    brs: false,
    address: None,
    dl: 8,
    pad: false,
    fill: 0xCC,
};

/// Requests of a tester come to the first channel, and are sent on as the second one's.
const PLANS: [ChannelPlan; 2] = [
    ChannelPlan {
        comes: Comes {
            id: CanId::Std(0x7E0),
            byte: None,
        },
        source: Some(SourcePlan {
            set: RxSet {
                chan: ChanNo(0),
                path: PathNo(0),
                group: GroupNo(0),
                readers: 1,
                a: 0,
                functional: false,
                bs: 0,
                st: 0,
                wft_max: 0,
                n_ar: 1000,
                n_br: 100,
                n_cr: 1000,
                threshold: 1,
                store: false,
            },
            shape: CONTROLS,
        }),
        destination: None,
    },
    ChannelPlan {
        comes: Comes {
            id: CanId::Std(0x7F8),
            byte: None,
        },
        source: None,
        destination: Some(TxSet {
            path: PathNo(0),
            group: GroupNo(0),
            dest: DestNo(0),
            shape: FRAMES,
            threshold: 1,
            store: false,
            n_as: 1000,
            n_bs: 1000,
            n_cs: 1000,
            period: 1000,
        }),
    },
];

/// The worker of that bus after tick 0, in which these frames came.
fn one_tick(alloc: Global, plans: &[ChannelPlan], frames: &[Dated]) -> Result<Worker, Memory>
    requires plans { IsBusPlan plans.now }
    requires ready { IsReady plans.now empty_view (hub_means (grouped (1 ∷ []) (16 ∷ [])) 1000000) }
    requires frames { NeverFall 0 frames.now }
    requires few { length frames.now ≤ 8 }
{
    let mut hub = PlainHub::new(alloc, &[16], &[1])?;
    let mut worker = Worker::new(alloc, 64, plans)?;
    worker.window(Tick(0), Tick(1), frames, &mut hub)?;
    Ok(worker)
}

/// The worker of that bus after a run that ends before anything came.
fn no_tick(alloc: Global, plans: &[ChannelPlan]) -> Result<Worker, Memory>
    requires plans { IsBusPlan plans.now }
    requires ready { IsReady plans.now empty_view (hub_means (grouped (1 ∷ []) (16 ∷ [])) 1000000) }
{
    let mut hub = PlainHub::new(alloc, &[16], &[1])?;
    let mut worker = Worker::new(alloc, 64, plans)?;
    worker.finish(Tick(0), &mut hub)?;
    Ok(worker)
}

#[test]
fn a_single_frame_goes_on_in_its_tick(rt: HostRuntime) -> Result<(), Fail> {
    let request = Frame::new(CanId::Std(0x7E0), false, false, &[0x03, 0x22, 0xF1, 0x90])?;
    let frames = [Dated {
        tick: Tick(0),
        frame: request,
    }];
    let worker = one_tick(rt.alloc(), &PLANS, &frames)?;
    let [sent] = worker.sent() else {
        return Err(Fail::from("not one frame"));
    };
    assert_eq!(rt; sent.tick, Tick(0));
    assert_eq!(rt; sent.frame.id(), CanId::Std(0x7F0));
    assert_eq!(rt; sent.frame.bytes(), [0x03, 0x22, 0xF1, 0x90].as_slice());
    assert_eq!(rt; worker.moves().len(), 2);
    let Some([session]) = worker.sessions(0) else {
        return Err(Fail::from("not one session"));
    };
    assert_eq!(rt; session.result, SessionResult::Whole);
    let Some([dest]) = worker.dests(1) else {
        return Err(Fail::from("not one destination"));
    };
    assert_eq!(rt; dest.result, DestResult::Sent);
    assert!(rt; worker.is_idle());
    Ok(())
}

#[test]
fn a_run_without_frames_tells_nothing(rt: HostRuntime) -> Result<(), Fail> {
    let worker = no_tick(rt.alloc(), &PLANS)?;
    assert!(rt; worker.is_idle());
    assert!(rt; worker.sent().is_empty());
    assert!(rt; worker.moves().is_empty());
    Ok(())
}
