// One list of changes and questions, run over every kind of network and of grade.
use faults::CallFault::{AlreadyLinked, AtCeiling, NoSuchPerson, NotLinked, SamePerson};
use faults::{CallFault, code};
use grades::{Grade, Laurels, Points};
use matrix::{BitMatrix, MatrixMemory};
use networks::{Capped, Changing, Network, Opening};
use rows::{AdjacencyRows, RowsMemory};
use std::alloc::Global;
use std::process::Abort;
use std::test::Fail;

// What the answers to the list come to: those to the changes, then what the network tells.
#[derive(Clone, Copy, PartialEq, Eq, Debug)]
struct Outcome {
    changes: [Result<(), CallFault>; 12],
    degrees: [usize; 5],
    near: [u32; 4],
    third: Option<usize>,
    nobody: Nobody,
}

// What is told of a person who is not there.
#[derive(Clone, Copy, PartialEq, Eq, Debug)]
struct Nobody {
    degree: usize,
    linked: bool,
    graded: bool,
}

// Five persons, of whom each takes at least three links.
const FIVE: Outcome = Outcome {
    changes: [
        Ok(()),
        Err(AlreadyLinked),
        Err(SamePerson),
        Err(NoSuchPerson),
        Ok(()),
        Ok(()),
        Ok(()),
        Err(NotLinked),
        Ok(()),
        Err(NotLinked),
        Ok(()),
        Err(NoSuchPerson),
    ],
    degrees: [2, 0, 1, 1, 2],
    near: [2, 4, 9, 9],
    third: None,
    nobody: Nobody {
        degree: 0,
        linked: false,
        graded: false,
    },
};

// The same list under a ceiling of one link.
const UNDER_ONE: Outcome = Outcome {
    changes: [
        Ok(()),
        Err(AlreadyLinked),
        Err(SamePerson),
        Err(NoSuchPerson),
        Ok(()),
        Err(AtCeiling),
        Err(AtCeiling),
        Err(NotLinked),
        Ok(()),
        Err(NotLinked),
        Ok(()),
        Err(NoSuchPerson),
    ],
    degrees: [0, 0, 0, 1, 1],
    near: [9, 9, 9, 9],
    ..FIVE
};

fn change<N: Changing>(net: &mut N, grade: N::Grade) -> [Result<(), CallFault>; 12] {
    [
        net.link(0, 1),
        net.link(1, 0),
        net.link(3, 3),
        net.link(0, 5),
        net.link(4, 3),
        net.link(4, 0),
        net.link(0, 2),
        net.unlink(1, 3),
        net.unlink(1, 0),
        net.unlink(0, 1),
        net.regrade(4, grade),
        net.regrade(5, grade),
    ]
}

fn try_out<N: Changing>(net: &mut N, grade: N::Grade) -> Outcome {
    let changes = change(net, grade);
    let mut near = [9; 4];
    let _ = net.copy_neighbours(0, &mut near);
    Outcome {
        changes,
        degrees: [0, 1, 2, 3, 4].map(|u| net.degree(u)),
        near,
        third: net.neighbour(0, 2),
        nobody: Nobody {
            degree: net.degree(5),
            linked: net.linked(0, 5),
            graded: net.grade(5).is_some(),
        },
    }
}

// A maker for each kind, since each has memory of its own; a cap is put round by its two fields.
fn matrix_of<G: Grade>(alloc: Global, zero: G) -> Result<BitMatrix<G>, Fail> {
    let bits = vec![in alloc; 255u8; 7]?;
    let grades = vec![in alloc; zero; 6]?;
    Ok(BitMatrix::open(5, MatrixMemory { bits, grades }))
}

fn rows_of<G: Grade>(
    rt: &impl Abort,
    alloc: Global,
    span: usize,
    zero: G,
) -> Result<AdjacencyRows<G>, Fail> {
    let counts = vec![in alloc; 9u16; 6]?;
    let cells = vec![in alloc; 9u16; 20]?;
    let grades = vec![in alloc; zero; 5]?;
    let memory = RowsMemory {
        span,
        counts,
        cells,
        grades,
    };
    assert_eq!(rt; AdjacencyRows::check(5, &memory), Ok(()));
    Ok(AdjacencyRows::open(5, memory))
}

const LOW: Laurels = Laurels { class: 0, score: 0 };

const HIGH: Laurels = Laurels { class: 1, score: 7 };

#[test]
fn answers_have_codes(rt: HostRuntime) {
    assert_eq!(rt;
        FIVE.changes.map(code),
        [0, 10, 9, 8, 0, 0, 0, 11, 0, 11, 0, 8]
    );
    assert_eq!(rt;
        UNDER_ONE.changes.map(code),
        [0, 10, 9, 8, 0, 12, 12, 11, 0, 11, 0, 8]
    );
}

// A test for each kind, so that a failure names it.
#[test]
fn matrix_of_each_grade(rt: HostRuntime) -> Result<(), Fail> {
    assert_eq!(rt;
        try_out(&mut matrix_of(rt.alloc(), Points(0))?, Points(-1)),
        FIVE
    );
    assert_eq!(rt; try_out(&mut matrix_of(rt.alloc(), LOW)?, HIGH), FIVE);
    Ok(())
}

#[test]
fn rows_of_each_grade(rt: HostRuntime) -> Result<(), Fail> {
    assert_eq!(rt;
        try_out(&mut rows_of(&rt, rt.alloc(), 4, Points(0))?, Points(3)),
        FIVE
    );
    assert_eq!(rt;
        try_out(&mut rows_of(&rt, rt.alloc(), 1, LOW)?, HIGH),
        UNDER_ONE
    );
    Ok(())
}

#[test]
fn capped_rows_of_each_grade(rt: HostRuntime) -> Result<(), Fail> {
    let mut one = Capped {
        below: rows_of(&rt, rt.alloc(), 4, Points(0))?,
        limit: 1,
    };
    assert_eq!(rt; try_out(&mut one, Points(3)), UNDER_ONE);
    let mut three = Capped {
        below: rows_of(&rt, rt.alloc(), 4, LOW)?,
        limit: 3,
    };
    assert_eq!(rt; try_out(&mut three, HIGH), FIVE);
    Ok(())
}

#[test]
fn capped_twice_over_matrix_of_each_grade(rt: HostRuntime) -> Result<(), Fail> {
    let below = Capped {
        below: matrix_of(rt.alloc(), Points(0))?,
        limit: 1,
    };
    assert_eq!(rt;
        try_out(&mut Capped { below, limit: 9 }, Points(3)),
        UNDER_ONE
    );
    let below = Capped {
        below: matrix_of(rt.alloc(), LOW)?,
        limit: 9,
    };
    assert_eq!(rt; try_out(&mut Capped { below, limit: 1 }, HIGH), UNDER_ONE);
    Ok(())
}
