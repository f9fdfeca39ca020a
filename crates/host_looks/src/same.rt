// Whether two queries are the same. What `==` of a type says of its values is not that they are the same.
ghost use Rattle.std.specs.Prelude.{◌≡◌, IsTrue};

use script_line::{Line, Look};
use sector_core::Class;

/// Whether both are this query.
pub fn is_same(one: Line, other: Line) -> bool
    ensures { IsTrue result → one ≡ other }
{
    match (one, other) {
        (Line::Sector { number }, Line::Sector { number: its }) => number == its,
        (Line::Queue { seat }, Line::Queue { seat: its }) => seat == its,
        (Line::Cursor, Line::Cursor) => true,
        (Line::Vtime { group }, Line::Vtime { group: its }) => group == its,
        (
            Line::ClassVtime { group, class },
            Line::ClassVtime {
                group: its,
                class: of_it,
            },
        ) => group == its && is_same_class(class, of_it),
        (Line::Entity { number }, Line::Entity { number: its }) => number == its,
        (Line::Class { number }, Line::Class { number: its }) => number == its,
        (Line::Show { look }, Line::Show { look: its }) => is_same_look(look, its),
        _ => false,
    }
}

fn is_same_class(one: Class, other: Class) -> bool
    ensures { IsTrue result → one ≡ other }
{
    match (one, other) {
        (Class::RealTime, Class::RealTime) => true,
        (Class::BestEffort, Class::BestEffort) => true,
        (Class::Idle, Class::Idle) => true,
        _ => false,
    }
}

fn is_same_look(one: Look, other: Look) -> bool
    ensures { IsTrue result → one ≡ other }
{
    match (one, other) {
        (Look::Seat { seat }, Look::Seat { seat: its }) => seat == its,
        (Look::Outbox { seat }, Look::Outbox { seat: its }) => seat == its,
        (Look::Queue { seat }, Look::Queue { seat: its }) => seat == its,
        (Look::Requeued, Look::Requeued) => true,
        (Look::Flight, Look::Flight) => true,
        (Look::Service, Look::Service) => true,
        (Look::Tree { group }, Look::Tree { group: its }) => group == its,
        (Look::Host, Look::Host) => true,
        (Look::State, Look::State) => true,
        (Look::Stored { from }, Look::Stored { from: its }) => from == its,
        (Look::Step { k }, Look::Step { k: its }) => k == its,
        _ => false,
    }
}
