//! The message's symbols, refusal 18.
ghost use Rattle.std.specs.Prelude.{◌≡◌, ltb};
ghost use Rattle.std.specs.List.{list_all};

/// Whether each symbol is below q.
pub fn elements(symbols: &[u8], q: usize) -> bool
    ensures { result ≡ list_all (λ x. ltb x q) symbols.now }
{
    symbols.iter().all(|&x| usize::from(x) < q)
}
