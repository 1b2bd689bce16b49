// Rising lists of values: whether a list rises.
ghost use Rattle.std.specs.Prelude.{◌≡◌};
ghost use Rattle.tables.specs.Rising.{is_rising};

// Whether values strictly rise.
pub fn is_rising(values: &[u32]) -> bool
    ensures { result ≡ is_rising values.now }
{
    values.is_sorted_by(|low, high| low < high)
}
