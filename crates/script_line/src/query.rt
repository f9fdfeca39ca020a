// Which lines are queries.
ghost use Rattle.std.specs.Prelude.{◌≡◌};
ghost use Rattle.script_line.specs.Query.{is_query};

use super::line::Line;

/// Whether a line is a query: it makes no call, and only looks at the keeper.
pub fn is_query(line: &Line) -> bool
    ensures { result ≡ is_query line.now }
{
    matches!(
        line,
        Line::Sector { .. }
            | Line::Queue { .. }
            | Line::Cursor
            | Line::Vtime { .. }
            | Line::ClassVtime { .. }
            | Line::Entity { .. }
            | Line::Class { .. }
            | Line::Show { .. }
    )
}
