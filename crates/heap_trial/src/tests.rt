// The heap's calls over points, laurels and tickets: ties, and the full and the empty edge.
ghost use Rattle.std.specs.Prelude.{nat_le};
ghost use Rattle.std.proofs.Common.{rules};

use faults::CallFault;
use grades::{Laurels, Points, Ranked};
use heap::{Ordered, least, put, sort, take};
use std::test::Fail;

// Two short makers, so that the cases below read as rows of numbers.
fn points(grade: i32, person: u32) -> Ranked<Points> {
    Ranked {
        grade: Points(grade),
        person,
    }
}

fn laurels(class: u8, score: u32, person: u32) -> Ranked<Laurels> {
    Ranked {
        grade: Laurels { class, score },
        person,
    }
}

#[test]
fn level_points_come_by_number(rt: HostRuntime) -> Result<(), Fail> {
    let mut places = [points(0, 0); 3];
    let n = put(&mut places, 0, points(7, 5))?;
    let n = put(&mut places, n, points(7, 2))?;
    let n = put(&mut places, n, points(-3, 9))?;
    assert_eq!(rt; n, 3);
    assert_eq!(rt; put(&mut places, 3, points(-8, 1)), Err(CallFault::NoRoom));
    assert_eq!(rt; least(&places, 3), Some(points(-3, 9)));
    assert_eq!(rt; take(&mut places, 3), Some(points(-3, 9)));
    assert_eq!(rt; put(&mut places, 2, points(-8, 1)), Ok(3));
    for (waiting, next) in [(3, points(-8, 1)), (2, points(7, 2)), (1, points(7, 5))] {
        assert_eq!(rt; take(&mut places, waiting), Some(next));
    }
    assert_eq!(rt; take(&mut places, 0), None);
    assert_eq!(rt; least(&places, 0), None);
    Ok(())
}

#[test]
fn laurels_come_by_class_then_score_then_number(rt: HostRuntime) {
    let mut places = [
        laurels(2, 1, 0),
        laurels(1, 9, 3),
        laurels(1, 9, 2),
        laurels(1, 8, 4),
    ];
    sort(&mut places);
    assert_eq!(rt; places.map(|x| x.person), [4, 2, 3, 0]);
}

// By the hour alone: two of one hour are level.
#[derive(Clone, Copy)]
struct Ticket {
    hour: u8,
    number: u8,
}

impl Ordered for Ticket {
    ghost at_most = { λ x y. nat_le x.hour y.hour };

    ghost total = { Prim.search rules };

    ghost transitive = { Prim.search rules };

    fn at_most(&self, other: &Ticket) -> bool {
        self.hour <= other.hour
    }
}

#[test]
fn level_tickets_all_come(rt: HostRuntime) {
    let mut places = [
        Ticket { hour: 5, number: 1 },
        Ticket { hour: 3, number: 2 },
        Ticket { hour: 5, number: 4 },
        Ticket { hour: 3, number: 8 },
    ];
    sort(&mut places);
    assert_eq!(rt; places.map(|x| x.hour), [3, 3, 5, 5]);
    assert_eq!(rt; places[0].number | places[1].number, 10);
    assert_eq!(rt; places[2].number | places[3].number, 5);
}

#[test]
fn no_place_holds_nothing(rt: HostRuntime) {
    let mut places = [points(4, 4); 0];
    assert_eq!(rt; put(&mut places, 0, points(1, 1)), Err(CallFault::NoRoom));
    assert_eq!(rt; take(&mut places, 7), None);
}
