use access_context::{Access, Outcome, Reads, Settled, Spec};
use plain_lists::{Sequence, Text};
use refusal_codes::{Refusal, Rule};
use std::sync::Arc;
use std::test::Fail;

#[test]
fn a_job_reads_what_came_of_its_items(rt: HostRuntime) -> Result<(), Fail> {
    let value = Arc::new(rt.alloc(), 70u64)?;
    let items = vec![in rt.alloc(); (7u32, Settled::Done(value)), (8, Settled::Blocked)]?;
    let reads = Reads::of(items);
    assert_eq!(rt; *reads.done(&7), 70);
    assert_eq!(rt; *reads.get(&8), Settled::Blocked);
    assert!(rt; !reads.all_done());
    let value = Arc::new(rt.alloc(), 70u64)?;
    assert!(rt; Reads::of(vec![in rt.alloc(); (7u32, Settled::Done(value))]?).all_done());
    Ok(())
}

#[test]
fn many_items_are_found_by_their_ids_and_given_in_their_order(rt: HostRuntime) -> Result<(), Fail> {
    let value = Arc::new(rt.alloc(), 70u64)?;
    let items = vec![in rt.alloc();
        (9u32, Settled::Blocked),
        (3, Settled::Done(value)),
        (7, Settled::Blocked),
        (1, Settled::Blocked),
        (8, Settled::Blocked),
        (2, Settled::Blocked),
        (6, Settled::Blocked),
        (4, Settled::Blocked),
        (3, Settled::Blocked),
    ]?;
    let reads = Reads::indexed(rt.alloc(), items)?;
    assert_eq!(rt; *reads.done(&3), 70);
    assert_eq!(rt; *reads.get(&4), Settled::Blocked);
    assert!(rt; !reads.all_done());
    let mut ids = Vec::new(rt.alloc());
    for item in reads.items() {
        ids.push(item.0)?;
    }
    assert_eq!(rt; ids.as_slice(), [9, 3, 7, 1, 8, 2, 6, 4, 3].as_slice());
    Ok(())
}

#[test]
fn a_job_and_its_copy_are_equal(rt: HostRuntime) -> Result<(), Fail> {
    let access = Access {
        reads: Sequence::from_vec(vec![in rt.alloc(); 4u32, 9]?),
        awaits: Some(2),
    };
    let job = Spec { id: 3, access };
    let copy = job.copy(rt.alloc())?;
    assert_eq!(rt; copy.id, 3);
    assert_eq!(rt; copy.access.awaits, Some(2));
    assert_eq!(rt; copy.access.reads.as_slice(), [4, 9].as_slice());
    assert!(rt; copy.access.copy(rt.alloc())? == job.access);
    Ok(())
}

#[test]
fn what_came_of_a_job_and_its_copy_are_equal(rt: HostRuntime) -> Result<(), Fail> {
    let done = Settled::Done(Arc::new(rt.alloc(), 70u64)?);
    let refused = Settled::Refused(Refusal {
        stratum: 1,
        kind: 3,
        name: Text::from_string(String::from_str(rt.alloc(), "A")?),
        rule: Rule::OpenContour,
        place: 40,
    });
    assert!(rt; done.copy(rt.alloc())? == done);
    assert!(rt; refused.copy(rt.alloc())? == refused);
    assert!(rt; refused != done);
    assert!(rt; Settled::<u64>::Blocked.copy(rt.alloc())? == Settled::Blocked);
    Ok(())
}

fn cross_threads<T: Send + Sync>(_value: &T) {}

#[test]
fn items_can_be_moved_to_threads_and_shared(rt: HostRuntime) -> Result<(), Fail> {
    let mut items = Vec::new(rt.alloc());
    items.push((7u32, Settled::Done(Arc::new(rt.alloc(), 70u64)?)))?;
    cross_threads(&Reads::of(items));
    cross_threads(&Outcome {
        value: Settled::<u64>::Blocked,
        added: Sequence::<Spec<u32>>::new(rt.alloc()),
    });
    Ok(())
}
