// What holds of all first lines.
ghost use Rattle.std.specs.Prelude.{◌≡◌, ℕ, ◌<◌, ◌^◌, List, ◌++◌};
ghost use Rattle.sector_core.specs.declared.config.Config.{Config};
ghost use Rattle.run_record.specs.Header.{header_text, IsSameConfig};

/// A first line is read in one way, whatever stands behind it: no two hosts share one, and none is a front of another.
pub fn one_header()
    ensures { (c d : Config) (m n : ℕ) (x y : List ℕ) → m < 2 ^ 64 → n < 2 ^ 64 → header_text c m ++ x ≡ header_text d n ++ y
        → IsSameConfig c d × (m ≡ n) × (x ≡ y) }
{}
