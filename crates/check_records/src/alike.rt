// Bytes that are compared with the ones that are due.
ghost use Rattle.std.specs.Prelude.{◌≡◌};
ghost use Rattle.check_records.specs.Records.{begin_alike};

// Whether the first n bytes of both are there and the same.
#[tactic(auto, using(crate::proofs::Equality::alike))]
pub fn begin_alike(a: &[u8], b: &[u8], n: usize) -> bool
    ensures { result ≡ begin_alike a.now b.now n }
{
    n <= a.len() && n <= b.len() && a[..n] == b[..n]
}
