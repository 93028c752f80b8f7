//! Rings of players, each in a thread of its own.
ghost use Rattle.std.specs.Prelude.{◌≡◌, ◌<◌, ◌≤◌, ◌^◌, All, IfOk, length};
ghost use Rattle.mesh.specs.Seats.{AreFresh};
ghost use Rattle.crossbeam_utils.specs.Padded.{padded_value};
ghost use Rattle.test_meshes.specs.Playing.{IsPlaying};

use crate::player::{NUMBERS, Player};
use crossbeam_utils::CachePadded;
use mesh::{Mesh, Seat};
use std::alloc::{AllocError, Global};
use std::sync::Wait;
use std::thread;
use std::thread::Threads;
use tags::token::{Port, To, Token, Word};

const THREADS: usize = 16;

/// Tokens with the numbers from 0 on; `each` of them for each element.
fn start_tokens(alloc: Global, elements: u32, each: u32) -> Result<Vec<Token>, AllocError>
    requires { (elements ≤ 16) × (each ≤ 100000) }
    ensures { IfOk result (λ start. length start.items ≤ 2 ^ 40) }
{
    let mut start = Vec::new(alloc);
    for frame in 0..elements {
        for k in 0..each {
            let token = Token {
                to: To::Instr {
                    frame,
                    ip: 0,
                    port: Port::Left,
                },
                word: Word::Frame(frame * NUMBERS + k),
            };
            start.push(token)?;
        }
    }
    if start.len() > 1 << 40 {
        return Err(AllocError);
    }
    Ok(start)
}

/// A player for each seat, the last seat first.
fn players(
    alloc: Global,
    mesh: &Mesh<Vec<Token>, Global>,
    mut seats: Vec<Seat<Vec<Token>>>,
    elements: u32,
    start: &[Token],
) -> Result<Vec<CachePadded<Player>>, AllocError>
    requires mesh { (elements ≡ mesh.now.elements) × (start.now ≡ mesh.now.start) × (0 < elements) × (elements ≤ 16) }
    requires seats { (length seats.items ≡ elements) × AreFresh mesh.now seats.items }
    ensures { IfOk result (λ all. All (λ p. IsPlaying mesh.now (padded_value p)) all.items) }
{
    let mut all = Vec::new(alloc);
    while let Some(seat) = seats.pop() {
        let element = seats.len() as u32;
        let player = Player::new(alloc, mesh, seat, element, elements, start)?;
        all.push(CachePadded::new(player))?;
    }
    Ok(all)
}

/// Runs each player in a thread of its own, until no token is live.
fn play<R: Threads + Wait + Sync>(
    rt: &R,
    alloc: Global,
    mesh: &Mesh<Vec<Token>, Global>,
    players: &mut [CachePadded<Player>],
)
    requires { All (λ p. IsPlaying mesh.now (padded_value p)) players.old }
{
    thread::for_each_mut(
        rt,
        players,
        THREADS,
        &|_: usize, p: &mut CachePadded<Player>| -> ()
            requires { IsPlaying mesh.now (padded_value p.old) }
        {
            let player: &mut Player = p;
            player.failed = player.run(rt, alloc, mesh).is_err();
        },
    );
}

/// Runs each player in a thread of its own, until it sees a reason to stop. The player at `setter` sets that reason.
fn play_to_stop<R: Threads + Wait + Sync>(
    rt: &R,
    alloc: Global,
    mesh: &Mesh<Vec<Token>, Global>,
    players: &mut [CachePadded<Player>],
    setter: usize,
    reason: u64,
)
    requires { All (λ p. IsPlaying mesh.now (padded_value p)) players.old }
{
    thread::for_each_mut(
        rt,
        players,
        THREADS,
        &|i: usize, p: &mut CachePadded<Player>| -> ()
            requires { IsPlaying mesh.now (padded_value p.old) }
        {
            let player: &mut Player = p;
            let sets = if i == setter { reason } else { 0 };
            player.failed = player.run_to_stop(rt, alloc, mesh, sets).is_err();
        },
    );
}

#[cfg(test)]
mod tests {
    use super::*;
    use std::test::Fail;

    // Each element passes 100,000 tokens round: all tokens go to all elements.
    #[test]
    fn tokens_go_round_two_four_and_sixteen_seats(rt: HostRuntime) -> Result<(), Fail> {
        let alloc = rt.alloc();
        for elements in [2u32, 4, 16] {
            let each = 100000 / elements;
            let start = start_tokens(alloc, elements, each)?;
            let (mesh, seats) = Mesh::new(alloc, elements, &start)?;
            let mut all = players(alloc, &mesh, seats, elements, &start)?;
            play(&rt, alloc, &mesh, &mut all);
            for padded in &all {
                let player: &Player = padded;
                assert!(rt; !player.failed && !player.tally.astray, "{elements} seats");
                assert_eq!(rt; player.tally.arrived, each, "{elements} seats");
                assert_eq!(rt; player.made, 100000, "{elements} seats");
            }
        }
        Ok(())
    }

    #[test]
    fn a_stop_is_seen_by_all(rt: HostRuntime) -> Result<(), Fail> {
        let alloc = rt.alloc();
        for elements in [2u32, 4, 16] {
            let start = start_tokens(alloc, elements, 100)?;
            let (mesh, seats) = Mesh::new(alloc, elements, &start)?;
            let mut all = players(alloc, &mesh, seats, elements, &start)?;
            play_to_stop(&rt, alloc, &mesh, &mut all, 1, 7);
            for padded in &all {
                let player: &Player = padded;
                assert!(rt; !player.failed);
                assert_eq!(rt; player.reason, 7, "{elements} seats");
            }
        }
        Ok(())
    }
}
