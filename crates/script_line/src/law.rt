// What holds of all lines.
ghost use Rattle.std.specs.Prelude.{◌≡◌};
ghost use Rattle.script_line.specs.Line.{spelled, Fits};
ghost use Rattle.script_line.specs.declared.line.Line.{Line};

/// Two lines that are spelled alike are equal, so a text is at most one line.
pub fn one_line()
    ensures { (l m : Line) → Fits l → Fits m → spelled l ≡ spelled m → l ≡ m }
{}
