use group_task::{GroupNo, Members, NodeId, owner, share};
use job_model::Queue;
use std::process::Abort;

pub(crate) fn members(numbers: &[u8]) -> Members {
    let mut all = Members::new();
    for number in numbers {
        if let Some(id) = NodeId::new(*number) {
            all.insert(id);
        }
    }
    all
}

fn check_owner(rt: &impl Abort, nodes: Members, number: u8, want: u8) {
    if let (Some(creator), Some(queue)) = (nodes.first(), Queue::new(number)) {
        assert!(rt; nodes.contains(creator));
        let task = share(GroupNo::numbered(creator, 1), nodes);
        assert!(rt; task.group().creator().is(creator));
        assert!(rt; task.members() == nodes);
        assert_eq!(rt; owner(&task, queue).number(), want, "queue {number}");
    } else {
        assert!(rt; false, "no member or no queue");
    }
}

#[test]
fn owners_of_queues(rt: HostRuntime) {
    let all = Members::below(128);
    check_owner(&rt, all, 0, 0);
    check_owner(&rt, all, 15, 15);
    let half = members(&[62, 63]);
    check_owner(&rt, half, 0, 62);
    check_owner(&rt, half, 15, 63);
    let last = members(&[126, 127]);
    check_owner(&rt, last, 0, 126);
    check_owner(&rt, last, 15, 127);
    check_owner(&rt, members(&[0, 64]), 1, 64);
    check_owner(&rt, members(&[5]), 15, 5);
    check_owner(&rt, members(&[1, 4, 9]), 8, 9);
}

#[test]
fn a_set_is_collected_and_gone_over(rt: HostRuntime) {
    let ids = [9u8, 1, 9, 4];
    let collected: Members = ids
        .iter()
        .filter_map(|number| NodeId::new(*number))
        .collect(rt.alloc())
        .expect(&rt, "a set takes no memory");
    assert!(rt; collected == members(&[1, 4, 9]));
    for id in &collected {
        assert!(rt; ids.contains(&id.number()));
    }
}
