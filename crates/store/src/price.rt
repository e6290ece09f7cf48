// Prices.
ghost use Rattle.std.specs.Prelude.{◌≡◌, ◌≤◌, length};
ghost use Rattle.program.specs.Case.{price_size};
ghost use Rattle.store.specs.Prices.{price_of};
ghost use Rattle.store.specs.Stored.{with_price};

// A price in cents with a supplement in per cent, which is rounded to the nearest cent, half a cent upwards.
pub fn price_of(price: usize, supplement: usize) -> u32
    requires { (price ≤ 2000000) × (supplement ≤ 100) }
    ensures { result ≡ price_of price supplement }
{
    (price + (price * supplement + 50) / 100) as u32
}

// Stores the price of an atom below 64.
pub fn put_price(prices: &mut [u32], atom: usize, price: u32)
    requires { price_size ≤ length prices.old }
    ensures { prices.new ≡ with_price prices.old atom price }
{
    if atom < 64 {
        prices[atom] = price;
    }
}
