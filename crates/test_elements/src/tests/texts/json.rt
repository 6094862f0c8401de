// Elements to JSON and back, and numbers that are refused, from a text and from a value that is given away. No contract says when
// reading succeeds, nor which text an error holds. In GF(2) 2 and in the level of four bits 16, and each larger byte, get the
// error `Value is out of range`; each smaller byte is read.
use field_base::{FieldKernel, Gf2, ReadWord};
use field_element::{Coefficients, Element};
use field_space::LinearizedPoly8b;
use serde::{Deserialize, DeserializeOwned, Serialize};
use serde_json::{Error, Value};
use std::alloc::Global;
use word_polynomial::{CubicKernel, GhashKernel, Poly64Kernel};
use word_tower::{Bits4, Tower};

/// The numbers of a byte.
static NUMBERS: &str =
    "0 1 2 3 4 5 6 7 8 9 10 11 12 13 14 15 16 17 18 19 20 21 22 23 24 25 26 27 28 29 30 31 32 33 34 35 \
    36 37 38 39 40 41 42 43 44 45 46 47 48 49 50 51 52 53 54 55 56 57 58 59 60 61 62 63 64 65 66 67 68 \
    69 70 71 72 73 74 75 76 77 78 79 80 81 82 83 84 85 86 87 88 89 90 91 92 93 94 95 96 97 98 99 100 \
    101 102 103 104 105 106 107 108 109 110 111 112 113 114 115 116 117 118 119 120 121 122 123 124 125 \
    126 127 128 129 130 131 132 133 134 135 136 137 138 139 140 141 142 143 144 145 146 147 148 149 150 \
    151 152 153 154 155 156 157 158 159 160 161 162 163 164 165 166 167 168 169 170 171 172 173 174 175 \
    176 177 178 179 180 181 182 183 184 185 186 187 188 189 190 191 192 193 194 195 196 197 198 199 200 \
    201 202 203 204 205 206 207 208 209 210 211 212 213 214 215 216 217 218 219 220 221 222 223 224 225 \
    226 227 228 229 230 231 232 233 234 235 236 237 238 239 240 241 242 243 244 245 246 247 248 249 250 \
    251 252 253 254 255";

fn read_owned<E: DeserializeOwned>(alloc: Global, text: &str) -> Result<E, Error> {
    match Value::from_str(alloc, text) {
        Ok(value) => serde_json::from_value::<E>(alloc, value),
        Err(error) => Err(error),
    }
}

// Whether an element was read that is written as the text.
fn is_written<E: Copy + Serialize>(alloc: Global, answer: &Result<E, Error>, text: &str) -> bool {
    match answer {
        Ok(element) => match serde_json::to_string(alloc, element) {
            Ok(again) => again.as_str() == text,
            Err(_) => false,
        },
        Err(_) => false,
    }
}

// Whether none was read, for a reason that begins so.
fn is_refused<E: Copy>(alloc: Global, answer: &Result<E, Error>, reason: &str) -> bool {
    match answer {
        Ok(_) => false,
        Err(error) => match format!(in alloc; "{error}") {
            Ok(said) => said.as_str().starts_with(reason),
            Err(_) => false,
        },
    }
}

// Whether the first texts, so many of them, are read and written again, and the others are refused for this reason.
fn takes<'a, E: Copy + Serialize + Deserialize<'a> + DeserializeOwned>(
    alloc: Global,
    texts: &'a str,
    taken: usize,
    reason: &str,
) -> bool {
    for (place, text) in texts.split_whitespace().enumerate() {
        let lent = serde_json::from_str::<E>(alloc, text);
        let owned = read_owned::<E>(alloc, text);
        let is_right = if place < taken {
            is_written(alloc, &lent, text) && is_written(alloc, &owned, text)
        } else {
            is_refused(alloc, &lent, reason) && is_refused(alloc, &owned, reason)
        };
        if !is_right {
            return false;
        }
    }
    true
}

// The same for elements of the field of a kernel.
fn elements_take<'a, R: ReadWord + Serialize, K: FieldKernel<R>>(
    alloc: Global,
    texts: &'a str,
    taken: usize,
    reason: &str,
) -> bool {
    takes::<Element<R, K>>(alloc, texts, taken, reason)
}

const RANGE: &str = "Value is out of range";

// Each number of a byte, at GF(2) and at a field that a byte stores with bits to spare.
#[test]
fn numbers_of_a_byte_are_read_or_refused(rt: HostRuntime) {
    let alloc = rt.alloc();
    assert!(rt;
        takes::<Gf2>(alloc, NUMBERS, 2, RANGE)
            && elements_take::<u8, Tower<Bits4>>(alloc, NUMBERS, 16, RANGE)
    );
}

// The greatest numbers and some others, and numbers past the word, below 0 and of too many and too few coefficients.
#[test]
fn numbers_past_the_word_are_refused(rt: HostRuntime) {
    let alloc = rt.alloc();
    assert!(rt;
        takes::<Gf2>(alloc, "0 1 256 -1", 2, "")
            && elements_take::<u64, Poly64Kernel>(
                alloc,
                "18446744073709551615 18446744073709551616",
                1,
                ""
            )
            && elements_take::<u128, GhashKernel>(
                alloc,
                "18446744073709551615 18446744073709551614 -1",
                2,
                ""
            )
            && elements_take::<Coefficients, CubicKernel>(
                alloc,
                "[1,2,3] [1,0,18446744073709551615] [1,2] [1,2,3,4] 1",
                2,
                ""
            )
            && takes::<LinearizedPoly8b>(alloc, "[0,1,2,3,4,5,128,255] [0,1,2,3,4,5,6,256]", 1, "")
    );
}
