// The products of the benchmark for C and Rust: the archive libproducts.a. Each export calls the function of that name of the library products,
// and promises the same.
#![tactic(auto)]

ghost use Rattle.std.specs.Prelude.{◌≡◌};
ghost use Rattle.algebra.specs.Words.{𝔽₁};
ghost use Rattle.products.specs.Products.{in_chain, SideBySide};

#[unsafe(no_mangle)]
pub extern "C" fn products_side_by_side(rounds: u32, factors: &[u32], values: &mut [u32]) -> bool
    ensures { SideBySide 𝔽₁ rounds factors.now values.old result values.new }
{
    products::products_side_by_side(rounds, factors, values)
}

#[unsafe(no_mangle)]
pub extern "C" fn products_in_chain(rounds: u32, factors: &[u32]) -> u32
    ensures { result ≡ in_chain 𝔽₁ rounds factors.now }
{
    products::products_in_chain(rounds, factors)
}
