#![tactic(auto)]
//! What has to be believed: the plain machine, its steps, its rules and its keeper, as definitions; and the types that they speak of.
//!
//! Read `specs/Headline.antt` first: what the contracts of the keeper cite. Below it stand `Keeper` (the line, the cursor and the
//! journal), `Step` and `Steps` (one file for each of the fourteen steps: its tests in order, then what it does), `Machine` (the record `Plain`),
//! `Rules` (the four rules of BFQ), `Members` and `Classes` (B-WF2Q+'s questions about a group), `Groups`, `Merge` and `Next`.
//! Each definition tells its origin: a kernel document, the paper on B-WF2Q+, or our profile. No table and no list of links is named.
//!
//! `Looks` has what a look shows, `Device` which step a device's call asks for, `Runs` the stored sectors that follow each other.
//!
//! | call | rule that it meets |
//! |---|---|
//! | [`Code::number`], [`Cause::number`] | the numbers that a client reads |
//! | [`Code::of_number`], [`Cause::of_number`] | what such a number tells, and none for any other number |
//! | [`DeviceCall::into_step`] | the step that a device's call asks for |
//! | [`Vtimes::same`], [`Vtimes::of`], [`Vtimes::with`] | a group's virtual times: all the same, that of a class, and with another one |

mod answer;
mod call;
mod limits;
mod member;
mod seat;
mod shape;
mod sizes;
mod step;
mod view;

pub use answer::{Answer, Cause, Code, Reply, Work};
pub use call::{Call, DeviceCall, Stamped};
pub use limits::{BIO_SECTORS, ENTITIES, GROUPS, LEAST_BUDGET, SEATS, SECTOR_BYTES, SESSION_BIOS};
pub use member::{Member, State, Vtimes};
pub use seat::{Expiry, InService, Seat};
pub use shape::Shape;
pub use sizes::Sizes;
pub use step::{Step, Why};
pub use view::{EntityView, RequestView, SectorView};
