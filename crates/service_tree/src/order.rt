// The orders of the members over one table of rows: the active ones by start, and the idle ones by finish.
ghost use Rattle.std.specs.Prelude.{◌≡◌, ◌<◌, ◌^◌, None, replicate, IfSome};
ghost use Rattle.augmented_tree.specs.Rows.{blank, height_at, sum_at};
ghost use Rattle.augmented_tree.specs.Tables.{pick_rows, above_rows, first_key_rows};
ghost use Rattle.service_tree.specs.Orders.{active_of, brought_in, idle_of, left_out, serving_of, with_member, without_member};

use augmented_tree::{
    BLANK, Figures, Row, Turn, first_key_at, height_at, insert_at, pick_at, remove_at,
    sum_above_at, sum_at,
};
use plain::{Member, State};

// The rows, and the links of the two tops. A member is active or idle and never both, so its row is in one tree at most.
#[derive(Drop)]
pub struct Orders {
    rows: [Row; 48],
    active: Option<u8>,
    idle: Option<u8>,
}

impl Orders {
    // The orders of nobody.
    pub fn new() -> Orders
        ensures { result ≡ record { rows = replicate 48 blank; active = None; idle = None } }
    {
        Orders {
            rows: [BLANK; 48],
            active: None,
            idle: None,
        }
    }

    // A member leaves the orders that it stands in.
    pub fn take_out(&mut self, n: u8, member: Option<Member>)
        ensures { self.new ≡ without_member self.old n member }
    {
        let active = leave(&mut self.rows, self.active, n, active_of(member));
        self.active = active;
        let idle = leave(&mut self.rows, self.idle, n, idle_of(member));
        self.idle = idle;
    }

    // A member comes into the order that its state asks for. It must have left the other one before, since its row is
    // written.
    pub fn put_in(&mut self, n: u8, member: Option<Member>)
        ensures { self.new ≡ with_member self.old n member }
    {
        let active = enter(&mut self.rows, self.active, n, active_of(member));
        self.active = active;
        let idle = enter(&mut self.rows, self.idle, n, idle_of(member));
        self.idle = idle;
    }

    // The first turn of the active members with a start up to a limit.
    pub fn pick(&self, limit: u64) -> Option<Turn>
        ensures { result ≡ pick_rows (height_at self.now.rows self.now.active) self.now.rows self.now.active limit }
    {
        let levels = height_at(&self.rows, self.active);
        pick_at(&self.rows, levels, self.active, limit)
    }

    // The least start of the active members.
    pub fn least_start(&self) -> Option<u64>
        ensures { result ≡ first_key_rows (height_at self.now.rows self.now.active) self.now.rows self.now.active }
    {
        let levels = height_at(&self.rows, self.active);
        first_key_at(&self.rows, levels, self.active)
    }

    // The sum of the weights of the active members.
    pub fn active_sum(&self) -> u64
        ensures { result ≡ sum_at self.now.rows self.now.active }
    {
        sum_at(&self.rows, self.active)
    }

    // The sum of the weights of the idle members with a finish above a limit.
    pub fn idle_sum(&self, limit: u64) -> u64
        ensures { result ≡ above_rows (height_at self.now.rows self.now.idle) self.now.rows self.now.idle limit }
    {
        let levels = height_at(&self.rows, self.idle);
        sum_above_at(&self.rows, levels, self.idle, limit)
    }
}

// A member goes out of the tree at a link, if it stands there. The link of the rest comes back.
fn leave(rows: &mut [Row], root: Option<u8>, n: u8, figures: Option<Figures>) -> Option<u8>
    ensures rows { rows.new ≡ (left_out (record { rows = rows.old; root = root }) n figures).rows }
    ensures root { result ≡ (left_out (record { rows = rows.old; root = root }) n figures).root }
{
    match figures {
        Some(figures) => {
            let levels = height_at(rows, root);
            remove_at(rows, levels, root, n, figures.key)
        }
        None => root,
    }
}

// A member goes into the tree at a link, if it belongs there. The link of the whole comes back.
fn enter(rows: &mut [Row], root: Option<u8>, n: u8, figures: Option<Figures>) -> Option<u8>
    ensures rows { rows.new ≡ (brought_in (record { rows = rows.old; root = root }) n figures).rows }
    ensures root { result ≡ (brought_in (record { rows = rows.old; root = root }) n figures).root }
{
    match figures {
        Some(figures) => {
            let levels = height_at(rows, root);
            Some(insert_at(rows, levels, root, n, figures))
        }
        None => root,
    }
}

// What the order of the active members knows of a member.
fn active_of(member: Option<Member>) -> Option<Figures>
    ensures { result ≡ active_of member }
{
    match member {
        Some(member) => match member.state {
            State::Idle => None,
            State::Active => Some(Figures {
                key: member.start,
                finish: member.finish,
                weight: member.weight,
            }),
            State::Serving => None,
        },
        None => None,
    }
}

// What the order of the idle members knows of a member.
fn idle_of(member: Option<Member>) -> Option<Figures>
    ensures { result ≡ idle_of member }
{
    match member {
        Some(member) => match member.state {
            State::Idle => Some(Figures {
                key: member.finish,
                finish: member.finish,
                weight: member.weight,
            }),
            State::Active => None,
            State::Serving => None,
        },
        None => None,
    }
}

// The weight of a member in service.
pub fn serving_of(member: Option<Member>) -> u64
    ensures value { result ≡ serving_of member }
    ensures light { result < 2 ^ 32 }
    ensures weight { IfSome member (λ m. m.weight < 2 ^ 32) }
{
    match member {
        Some(member) => {
            let weight = u64::from(member.weight);
            match member.state {
                State::Idle => 0,
                State::Active => 0,
                State::Serving => weight,
            }
        }
        None => 0,
    }
}
