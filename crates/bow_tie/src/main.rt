// Opens the bow tie network, links it, tries refused changes, and shows who is linked to whom, with core numbers.
// The runtime is lent to each function that prints, and so is the network, which the function that opened it holds.
#![tactic(auto)]

use faults::CallFault;
use grades::Points;
use matrix::{BitMatrix, MatrixMemory};
use networks::{Changing, Network, Opening};
use rows::{AdjacencyRows, RowsMemory};
use std::fmt::Display;

const POINTS: [i32; 5] = [10, 30, 20, 50, 40];

const LINKS: [(usize, usize); 6] = [(0, 1), (0, 2), (1, 2), (2, 3), (2, 4), (3, 4)];

// One line a person: number, points, degree, neighbours.
fn show(rt: &impl Print, net: &impl Network<Grade = Points>) -> anyhow::Result<()> {
    for u in 0..net.persons() {
        if let Some(Points(points)) = net.grade(u) {
            let degree = net.degree(u);
            print!(rt; "person {u}: {points} points, {degree} links:")?;
            for v in (0..degree).filter_map(|i| net.neighbour(u, i)) {
                print!(rt; " {v}")?;
            }
            println!(rt; "")?;
        }
    }
    Ok(())
}

fn show_cores(rt: &impl Print, net: &impl Network<Grade = Points>) -> anyhow::Result<()> {
    let mut row = [0; 5];
    let answer = cores::cores(net, &mut [0; 40], &mut row);
    tell(rt, &"core numbers", answer)?;
    for (u, core) in row.iter().enumerate() {
        println!(rt; "person {u}: {core}")?;
    }
    Ok(())
}

// By its code, as the rules tell answers. The call is written first, so that it stands where a stream takes no more.
fn tell(rt: &impl Print, call: &impl Display, answer: Result<(), CallFault>) -> anyhow::Result<()> {
    print!(rt; "{call}")?;
    match faults::code(answer) {
        0 => println!(rt; ": done")?,
        number => println!(rt; ": refused with {number}")?,
    }
    Ok(())
}

fn link_all(
    rt: &impl Print,
    net: &mut impl Changing,
    pairs: &[(usize, usize)],
) -> anyhow::Result<()> {
    for &(u, v) in pairs {
        tell(rt, &format_args!("link {u}-{v}"), net.link(u, v))?;
    }
    Ok(())
}

fn tie(rt: &impl Print, net: &mut impl Changing<Grade = Points>) -> anyhow::Result<()> {
    for (u, points) in POINTS.into_iter().enumerate() {
        let answer = net.regrade(u, Points(points));
        tell(rt, &format_args!("regrade {u} to {points}"), answer)?;
    }
    link_all(rt, net, &LINKS)
}

fn refuse(rt: &impl Print, net: &mut impl Changing<Grade = Points>) -> anyhow::Result<()> {
    link_all(rt, net, &[(0, 5), (3, 3), (4, 3)])?;
    tell(rt, &"unlink 0-4", net.unlink(0, 4))?;
    tell(rt, &"regrade 7 to 1", net.regrade(7, Points(1)))
}

// Rows with a place for one link each.
fn fill_rows(rt: &HostRuntime) -> anyhow::Result<()> {
    let counts = vec![in rt.alloc(); 0u16; 3]?;
    let cells = vec![in rt.alloc(); 0u16; 3]?;
    let grades = vec![in rt.alloc(); Points(0); 3]?;
    let mut net = AdjacencyRows::open(
        3,
        RowsMemory {
            span: 1,
            counts,
            cells,
            grades,
        },
    );
    let ceiling = net.ceiling();
    println!(rt; "three persons in rows, at most {ceiling} link each")?;
    link_all(rt, &mut net, &[(0, 1), (0, 2)])?;
    show(rt, &net)
}

fn run(rt: &HostRuntime) -> anyhow::Result<()> {
    let bits = vec![in rt.alloc(); 0u8; 5]?;
    let grades = vec![in rt.alloc(); Points(0); 5]?;
    let memory = MatrixMemory { bits, grades };
    for n in [6, 5] {
        let answer = BitMatrix::check(n, &memory);
        tell(rt, &format_args!("opening for {n} persons"), answer)?;
    }
    let mut net = BitMatrix::open(5, memory);
    tie(rt, &mut net)?;
    show(rt, &net)?;
    show_cores(rt, &net)?;
    refuse(rt, &mut net)?;
    tell(rt, &"unlink 3-4", net.unlink(3, 4))?;
    show(rt, &net)?;
    show_cores(rt, &net)?;
    fill_rows(rt)
}

fn main(rt: HostRuntime) -> anyhow::Result<()> {
    run(&rt)
}
