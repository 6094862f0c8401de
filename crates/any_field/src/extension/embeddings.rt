// Embeddings of one field in another, by a root of the modulus of the first in the second. A field of 2^d elements lies in one of 2^m
// elements where d divides m (R. Lidl and H. Niederreiter, Finite Fields, theorem 2.6).
ghost use Rattle.std.specs.Prelude.{◌≡◌, ◌≢◌, ◌%◌, ◌^◌, ◌<◌, ◌≤◌, ℕ, IfNone, IfSome, IsSome, length, slice_index};
ghost use Rattle.field_base.specs.Powers.{power};
ghost use Rattle.word_tables.specs.LinearMap.{sum_of_values};
ghost use Rattle.any_field.specs.Contexts.{field_product, with_top};
ghost use Rattle.any_field.specs.Values.{IsEmbeddingOf, binary_value};

use crate::extension::BinaryExtension;
use crate::extension::multiples::{digits_of, sum_at_digits, values_at_digits};
use crate::extension::roots::likely_root;
use crate::reduction::low_bits;

/// A map from one field into another, or onto it, that carries 1, sums and products, and no two elements to one: an element goes to the
/// value at the root of the polynomial that it is.
#[derive(Clone, Copy)]
pub struct Embedding {
    source: BinaryExtension,
    target: BinaryExtension,
    root: u128,
    // the root to the power of the degree of the source
    high: u128,
    ghost is_root: { binary_value (field_product target.degree target.tail) root (with_top source.degree source.tail) ≡ 0 },
    ghost high_is: { high ≡ binary_value (field_product target.degree target.tail) root (with_top source.degree 0) },
}

/// The images by an embedding, made ready for many: 8,192 bytes of tables. An image is the sum of an entry for each four bits of the element.
#[derive(Drop)]
pub struct Images {
    map: Embedding,
    // how many digits to base 16 an element of the source has, or a few more
    digits: usize,
    values: [u128; 512],
    ghost few: { digits ≤ 32 },
    ghost images: { (x : ℕ) → x < 2 ^ map.source.degree
        → sum_of_values digits values x ≡ binary_value (field_product map.target.degree map.target.tail) map.root x },
}

impl Embedding {
    /// The map that takes x of the source to the root. It is `None` exactly where that is no root of the modulus of the source.
    pub fn new(source: BinaryExtension, target: BinaryExtension, root: u128) -> Option<Embedding>
        ensures fields { IfSome result (λ map. (map.source.degree ≡ source.degree) × (map.source.tail ≡ source.tail)
            × (map.target.degree ≡ target.degree) × (map.target.tail ≡ target.tail) × (map.root ≡ root)) }
        ensures none { IfNone result
            (binary_value (field_product target.degree target.tail) root (with_top source.degree source.tail) ≢ 0) }
    {
        if target.value(root, source.degree, source.tail) != 0 {
            return None;
        }
        Some(Embedding {
            source,
            target,
            root,
            high: target.value(root, source.degree, 0),
        })
    }

    /// A map of the source into the target: it is found, and is `None` exactly where the degree of the source does not divide that of the
    /// target, where there is none. It takes x to a root of the modulus of the source, which common factors with traces give.
    pub fn find(source: BinaryExtension, target: BinaryExtension) -> Option<Embedding>
        ensures fields { IfSome result (λ map. (map.source.degree ≡ source.degree) × (map.source.tail ≡ source.tail)
            × (map.target.degree ≡ target.degree) × (map.target.tail ≡ target.tail)) }
        ensures some { IfSome result (λ map. target.degree % source.degree ≡ 0) }
        ensures none { IfNone result (target.degree % source.degree ≢ 0) }
    {
        if target.degree % source.degree != 0 {
            return None;
        }
        match Embedding::new(source, target, likely_root(source, target)) {
            Some(map) => return Some(map),
            None => {}
        }
        Embedding::first(source, target)
    }

    // The map by the least root, which there is where the degree of the source divides that of the target.
    fn first(source: BinaryExtension, target: BinaryExtension) -> Option<Embedding>
        requires { target.degree % source.degree ≡ 0 }
        ensures fields { IfSome result (λ map. (map.source.degree ≡ source.degree) × (map.source.tail ≡ source.tail)
            × (map.target.degree ≡ target.degree) × (map.target.tail ≡ target.tail)) }
        ensures some { IsSome result }
    {
        let last = low_bits(u128::MAX, target.degree);
        let mut root: u128 = 0;
        while root < last && target.value(root, source.degree, source.tail) != 0 {
            root += 1;
        }
        Embedding::new(source, target, root)
    }

    /// The element to which x of the source goes: a root of its modulus. A source of degree 1 has no x but 1.
    pub fn root(self) -> u128
        ensures element { result ≡ self.root % 2 ^ self.target.degree }
        ensures root { binary_value (field_product self.target.degree self.target.tail) result
            (with_top self.source.degree self.source.tail) ≡ 0 }
    {
        low_bits(self.root, self.target.degree)
    }

    /// The image of an element: the value at the root of the polynomial that it is.
    pub fn image(self, x: u128) -> u128
        ensures { result ≡ binary_value (field_product self.target.degree self.target.tail) self.root (x % 2 ^ self.source.degree) }
    {
        let x = low_bits(x, self.source.degree);
        self.target.value(self.root, self.source.degree, x) ^ self.high
    }

    /// States that it is an embedding: it carries 1, sums and products, and no two elements to one. Computes nothing.
    pub fn is_embedding(self)
        ensures { IsEmbeddingOf self.source.degree self.target.degree (field_product self.source.degree self.source.tail)
            (field_product self.target.degree self.target.tail)
            (binary_value (field_product self.target.degree self.target.tail) self.root) }
    {}

    /// The images of many elements. It takes as long as some hundred products.
    pub fn images(self) -> Images
        ensures { result.map ≡ self }
    {
        let digits = digits_of(self.source.degree);
        Images {
            map: self,
            digits,
            values: values_at_digits(&self.powers_of_root(), digits),
        }
    }

    // The powers of the root, the lowest first: the images of the powers of x.
    fn powers_of_root(self) -> [u128; 128]
        ensures length { length result ≡ 128 }
        ensures each { (j : ℕ) → j < 128
            → slice_index result j ≡ power 1 (field_product self.target.degree self.target.tail) self.root j }
    {
        let mut powers = [0; 128];
        let mut power: u128 = 1;
        for place in 0..128usize {
            powers[place] = power;
            power = self.target.multiply(power, self.root);
        }
        powers
    }
}

impl Images {
    /// The image of an element: the value at the root of the polynomial that it is. `x` has to be an element of the source.
    #[inline(always)]
    pub fn of(&self, x: u128) -> u128
        requires { x < 2 ^ self.now.map.source.degree }
        ensures { result ≡ binary_value (field_product self.now.map.target.degree self.now.map.target.tail) self.now.map.root x }
    {
        sum_at_digits(&self.values, x, self.digits)
    }
}
