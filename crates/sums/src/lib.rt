// The sum of an image: whole, page by page in an order, and of one page (document 02, Job 11).
#![tactic(auto)]

ghost use Rattle.std.specs.Prelude.{◌≡◌, true, ◌+◌, ◌*◌, ◌≤◌, ◌<◌, length};
ghost use Rattle.sums.specs.Sum.{weighted, page_sum, sum_over, rising, names_each};

// "modulo 4,294,967,296".
const MODULUS: u64 = 4294967296;

// The words of marks for the most pages that there are.
const WORDS: usize = 1024;

// Each byte × (its address + 1), of bytes that stand from address a on: the sum of each byte × its place, from 1 on, and
// a × the sum of the bytes. Both fit 32 bits, so that the compiler adds several bytes at once.
fn weighted_sum(bytes: &[u8], a: u64) -> u64
    requires { (length bytes.now ≤ 4096) × (a ≤ 268435456) }
    ensures { result ≡ weighted a bytes.now }
{
    let mut total = 0u32;
    let mut placed = 0u32;
    for (i, byte) in bytes.iter().enumerate() {
        let b = *byte as u32;
        total += b;
        placed += b * (i as u32 + 1);
    }
    placed as u64 + total as u64 * a
}

// The part of page p in the sum of its image.
pub fn page_sum(image: &[u8], u: usize, p: usize) -> u64
    requires { (u ≤ 4096) × (p * u + u ≤ length image.now) × (length image.now ≤ 268435456) }
    ensures { result ≡ page_sum u image.now p }
{
    let a = p * u;
    weighted_sum(lists::part_of(image, a, u), a as u64) % MODULUS
}

// The pages added in rising order.
pub fn rising_sum(image: &[u8], u: usize, m: usize) -> u64
    requires { (u ≤ 4096) × (m ≤ 65536) × (length image.now ≡ m * u) }
    ensures { result ≡ sum_over u image.now (rising m) }
{
    let mut total = 0u64;
    for p in 0..m {
        total = (total + page_sum(image, u, p)) % MODULUS;
    }
    total
}

// Whether the order names each of m pages once: m entries that mark all m pages do. An entry of m or more marks none of
// these.
pub fn names_each(order: &[u64], m: usize) -> bool
    requires { m ≤ 65536 }
    ensures { result ≡ names_each m order.now }
{
    if order.len() != m {
        return false;
    }
    let mut named = [0u64; WORDS];
    for p in order {
        marks::mark(&mut named, *p as usize);
    }
    marks::count(&named, m) == m
}

// The pages added in this order, which names each of m once. No generic one of both loops: what bounds the items of an
// iterator would be a clause of its own, longer than the loop.
pub fn order_sum(image: &[u8], order: &[u64], u: usize, m: usize) -> u64
    requires { (u ≤ 4096) × (m ≤ 65536) × (length image.now ≡ m * u) × (names_each m order.now ≡ true) }
    ensures { result ≡ sum_over u image.now order.now }
{
    let mut total = 0u64;
    for p in order {
        total = (total + page_sum(image, u, *p as usize)) % MODULUS;
    }
    total
}
