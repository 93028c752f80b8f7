//! One thread that holds both seats of a mesh of two elements.
ghost use Rattle.std.specs.Prelude.{◌≡◌, ◌<◌, ◌≤◌, ◌∷◌, [], length};
ghost use Rattle.tags.specs.Addresses.{element_of};
ghost use Rattle.mesh.specs.Deeds.{created};
ghost use Rattle.mesh.specs.Seats.{AllTo, AreFresh, fresh_seat};
ghost use Rattle.test_meshes.specs.Playing.{Holds};

use crate::step::{commit, live, post, take};
use mesh::{Mesh, Seat};
use std::alloc::Global;
use std::process::Abort;
use std::test::Fail;
use tags::token::{Port, To, Token, Word};
use test_inputs::rationed::{Rationed, is_next_refused};

/// Memory that counts how often it is asked: `Mesh::new` alone takes some.
type Heap<'h> = &'h Rationed<Global>;

type Bundle<'h> = Vec<Token, Heap<'h>>;

fn token(frame: u32, number: u32) -> Token
    requires { frame < 2 }
    ensures { element_of 2 result.to ≡ frame }
{
    Token {
        to: To::Instr {
            frame,
            ip: 0,
            port: Port::Left,
        },
        word: Word::Frame(number),
    }
}

/// The one token of a bundle.
fn only(rt: &impl Abort, bundle: &[Token]) -> Token
    ensures { bundle.now ≡ result ∷ [] }
{
    assert!(rt; bundle.len() == 1);
    bundle[0]
}

/// Element 0 spends t to make u and v.
fn spend<'h>(
    rt: &impl Abort,
    mesh: &Mesh<Bundle<'h>, Heap<'h>>,
    seat: &mut Seat<Bundle<'h>>,
    t: &Token,
    u: &Token,
    v: &Token,
)
    requires mesh { mesh.now.elements ≡ 2 }
    requires seat { (seat.old.own.element ≡ 0) × (created seat.old.own.deeds ≡ 0) × Holds mesh.now seat.old (t.now ∷ []) }
    requires token { element_of 2 t.now.to ≡ 0 }
    ensures seat { (seat.new.own.element ≡ 0) × Holds mesh.now seat.new (u.now ∷ v.now ∷ []) }
{
    let spent = [*t];
    let made = [*u, *v];
    assert_eq!(rt; live(mesh, seat, &spent), 1);
    commit(mesh, seat, &spent, &made, &[]);
    assert_eq!(rt; live(mesh, seat, &made), 2);
}

/// Element 0 posts u. Then the box is full, so v is returned.
fn post_both<'h>(
    rt: &impl Abort,
    heap: Heap<'h>,
    mesh: &Mesh<Bundle<'h>, Heap<'h>>,
    seat: &mut Seat<Bundle<'h>>,
    u: &Token,
    v: &Token,
) -> Bundle<'h>
    requires mesh { mesh.now.elements ≡ 2 }
    requires seat { (seat.old.own.element ≡ 0) × Holds mesh.now seat.old (u.now ∷ v.now ∷ []) }
    requires tokens { (element_of 2 u.now.to ≡ 1) × (element_of 2 v.now.to ≡ 1) }
    ensures back { result.items ≡ v.now ∷ [] }
    ensures seat { (seat.new.own.element ≡ 0) × Holds mesh.now seat.new (v.now ∷ []) }
{
    let later = [*v];
    let first = vec![in heap; *u].expect(rt, "memory");
    let second = vec![in heap; *v].expect(rt, "memory");
    let left = heap.left();
    let Ok(()) = post(mesh, seat, 1, first, &later) else {
        panic!(rt; "the box is empty")
    };
    let Err(back) = post(mesh, seat, 1, second, &[]) else {
        panic!(rt; "the box is full")
    };
    assert_eq!(rt; heap.left(), left);
    back
}

/// Element 1 takes what element 0 posted. Then the box is empty.
fn take_one<'h>(
    rt: &impl Abort,
    mesh: &Mesh<Bundle<'h>, Heap<'h>>,
    seat: &mut Seat<Bundle<'h>>,
) -> Bundle<'h>
    requires mesh { mesh.now.elements ≡ 2 }
    requires seat { (seat.old.own.element ≡ 1) × (created seat.old.own.deeds ≡ 0) × Holds mesh.now seat.old [] }
    ensures seat { (seat.new.own.element ≡ 1) × (created seat.new.own.deeds ≡ 0) × Holds mesh.now seat.new result.items }
    ensures address { AllTo 2 1 result.items }
{
    let Some(first) = take(mesh, seat, 0, &[]) else {
        panic!(rt; "the box is full")
    };
    assert!(rt; take(mesh, seat, 0, &first).is_none());
    first
}

/// Element 1 takes the next bundle too, and spends both.
fn take_and_spend<'h>(
    rt: &impl Abort,
    mesh: &Mesh<Bundle<'h>, Heap<'h>>,
    seat: &mut Seat<Bundle<'h>>,
    first: &[Token],
) -> Bundle<'h>
    requires mesh { mesh.now.elements ≡ 2 }
    requires seat { (seat.old.own.element ≡ 1) × (created seat.old.own.deeds ≡ 0) × Holds mesh.now seat.old first.now }
    requires address { AllTo 2 1 first.now }
    ensures seat { (seat.new.own.element ≡ 1) × Holds mesh.now seat.new [] }
{
    let Some(second) = take(mesh, seat, 0, first) else {
        panic!(rt; "the box is full")
    };
    let spent = [only(rt, first)];
    let rest = [only(rt, &second)];
    commit(mesh, seat, &spent, &[], &rest);
    commit(mesh, seat, &rest, &[], &[]);
    second
}

/// Joins both seats.
fn join_both<'h>(
    rt: &impl Abort,
    heap: Heap<'h>,
    mesh: &Mesh<Bundle<'h>, Heap<'h>>,
    zero: Seat<Bundle<'h>>,
    one: Seat<Bundle<'h>>,
)
    requires mesh { mesh.now.elements ≡ 2 }
    requires zero { (zero.own.element ≡ 0) × (zero.mesh ≡ mesh.now) × (zero.joined ≡ []) }
    requires one { (one.own.element ≡ 1) × (one.mesh ≡ mesh.now) × (one.joined ≡ []) }
{
    let seats = vec![in heap; zero, one].expect(rt, "memory");
    let left = heap.left();
    let _both = mesh.join_seats(seats);
    assert_eq!(rt; heap.left(), left);
}

/// The seats of elements 0 and 1.
fn both_seats<'h>(
    rt: &impl Abort,
    mesh: &Mesh<Bundle<'h>, Heap<'h>>,
    mut seats: Vec<Seat<Bundle<'h>>, Heap<'h>>,
) -> (Seat<Bundle<'h>>, Seat<Bundle<'h>>)
    requires seats { (length seats.items ≡ 2) × AreFresh mesh.now seats.items }
    ensures zero { result.0 ≡ fresh_seat mesh.now 0 }
    ensures one { result.1 ≡ fresh_seat mesh.now 1 }
{
    let Some(one) = seats.pop() else {
        panic!(rt; "there are two")
    };
    let Some(zero) = seats.pop() else {
        panic!(rt; "there are two")
    };
    (zero, one)
}

fn the_row<'h>(
    rt: &impl Abort,
    heap: Heap<'h>,
    mesh: &Mesh<Bundle<'h>, Heap<'h>>,
    seats: Vec<Seat<Bundle<'h>>, Heap<'h>>,
    t: &Token,
)
    requires mesh { (mesh.now.elements ≡ 2) × (mesh.now.start ≡ t.now ∷ []) × (element_of 2 t.now.to ≡ 0) }
    requires seats { (length seats.items ≡ 2) × AreFresh mesh.now seats.items }
{
    let (mut zero, mut one) = both_seats(rt, mesh, seats);
    let u = token(1, 1);
    let v = token(1, 2);
    let left = heap.left();
    spend(rt, mesh, &mut zero, t, &u, &v);
    assert_eq!(rt; heap.left(), left);
    let back = post_both(rt, heap, mesh, &mut zero, &u, &v);
    assert_eq!(rt; only(rt, &back), token(1, 2));
    let left = heap.left();
    let first = take_one(rt, mesh, &mut one);
    assert_eq!(rt; only(rt, &first), token(1, 1));
    let Ok(()) = post(mesh, &mut zero, 1, back, &[]) else {
        panic!(rt; "the box is empty")
    };
    let second = take_and_spend(rt, mesh, &mut one, &first);
    assert_eq!(rt; only(rt, &second), token(1, 2));
    assert_eq!(rt; live(mesh, &mut zero, &[]), 0);
    assert_eq!(rt; live(mesh, &mut one, &[]), 0);
    assert!(rt; mesh.stop(&mut zero, 3));
    assert!(rt; !mesh.stop(&mut one, 5));
    assert_eq!(rt; mesh.stopped(&mut one), 3);
    assert_eq!(rt; heap.left(), left);
    join_both(rt, heap, mesh, zero, one);
}

fn open_and_play<'h>(rt: &impl Abort, heap: Heap<'h>, t: &Token)
    requires { element_of 2 t.now.to ≡ 0 }
{
    let start = [*t];
    let (mesh, seats) = Mesh::new(heap, 2, &start).expect(rt, "memory");
    the_row(rt, heap, &mesh, seats, t);
}

#[test]
fn the_worked_row(rt: HostRuntime) {
    let t = token(0, 0);
    let heap = Rationed::new(rt.alloc(), 0);
    open_and_play(&rt, &heap, &t);
}

/// Each growth is refused in turn, until none is.
#[test]
fn each_growth_refused(rt: HostRuntime) -> Result<(), Fail> {
    let start = [token(0, 0), token(1, 1)];
    let mut refused = 0u64;
    let mut whole = false;
    for at in 1..10_000u64 {
        let heap = Rationed::new(rt.alloc(), at);
        let is_made = Mesh::<Bundle<'_>, _>::new(&heap, 16, &start).is_ok();
        whole = is_next_refused(&heap);
        assert_eq!(rt; is_made, whole, "{at}");
        if whole {
            break;
        }
        refused = refused.wrapping_add(1);
    }
    assert!(rt; whole && refused > 0);
    Ok(())
}
