//! The inverse S-box of AES by gates, on each bit of vectors (Boyar and Peralta, A depth-16 circuit
//! for the AES S-box, 2011).

ghost use Rattle.std.specs.Prelude.{◌≡◌, ◌++◌, ◌<◌, ℕ};
ghost use Rattle.aes_slices.specs.Slices.{cell};
ghost use Rattle.aes_slices.specs.Circuits.{run_vectors, first, with_ones};
ghost use Rattle.aes_slices.specs.InverseBox.{input_sums, subfield_element, subfield_inverse, inverse_products, output_sums, gates_byte};

use crate::slices::{Slices, are_whole};
use std::simd::u8x16;

/// Sums of the bits of each byte, to which 63 is added.
#[inline(always)]
fn input_sums(s: [u8x16; 8]) -> [u8x16; 22]
    ensures { result ≡ run_vectors input_sums (with_ones s) }
{
    let [u7, u6, u5, u4, u3, u2, u1, u0] = s;
    let ones = u8x16::splat(255);
    let u7 = u7 ^ ones;
    let u6 = u6 ^ ones;
    let u2 = u2 ^ ones;
    let u1 = u1 ^ ones;
    let t23 = u0 ^ u3;
    let t22 = u1 ^ u3;
    let t2 = u0 ^ u1;
    let t1 = u3 ^ u4;
    let t24 = u4 ^ u7;
    let r5 = u6 ^ u7;
    let t8 = u1 ^ t23;
    let t19 = t22 ^ r5;
    let t9 = u7 ^ t1;
    let t10 = t2 ^ t24;
    let t13 = t2 ^ r5;
    let t3 = t1 ^ r5;
    let t25 = u2 ^ t1;
    let r13 = u1 ^ u6;
    let t17 = u2 ^ t19;
    let t20 = t24 ^ r13;
    let t4 = u4 ^ t8;
    let r17 = u2 ^ u5;
    let r18 = u5 ^ u6;
    let r19 = u2 ^ u4;
    let d = u0 ^ r17;
    let t6 = t22 ^ r17;
    let t16 = r13 ^ r19;
    let t27 = t1 ^ r18;
    let t15 = t10 ^ t27;
    let t14 = t10 ^ r18;
    let t26 = t3 ^ t16;
    [
        t23, t22, t2, t1, t24, t8, t19, t9, t10, t13, t3, t25, t17, t20, t4, d, t6, t16, t27, t15,
        t14, t26,
    ]
}

/// From the sums of bits: an element of the field of sixteen elements.
#[inline(always)]
fn subfield_element(s: [u8x16; 22]) -> [u8x16; 4]
    ensures { result ≡ run_vectors subfield_element (first 22 s) }
{
    let [
        t23,
        t22,
        t2,
        t1,
        t24,
        t8,
        t19,
        t9,
        t10,
        t13,
        t3,
        t25,
        t17,
        t20,
        t4,
        d,
        t6,
        t16,
        t27,
        t15,
        t14,
        t26,
    ] = s;
    let m1 = t13 & t6;
    let m2 = t23 & t8;
    let m3 = t14 ^ m1;
    let m4 = t19 & d;
    let m5 = m4 ^ m1;
    let m6 = t3 & t16;
    let m7 = t22 & t9;
    let m8 = t26 ^ m6;
    let m9 = t20 & t17;
    let m10 = m9 ^ m6;
    let m11 = t1 & t15;
    let m12 = t4 & t27;
    let m13 = m12 ^ m11;
    let m14 = t2 & t10;
    let m15 = m14 ^ m11;
    let m16 = m3 ^ m2;
    let m17 = m5 ^ t24;
    let m18 = m8 ^ m7;
    let m19 = m10 ^ m15;
    let m20 = m16 ^ m13;
    let m21 = m17 ^ m15;
    let m22 = m18 ^ m13;
    let m23 = m19 ^ t25;
    [m20, m21, m22, m23]
}

/// Its inverse, and sums of its bits.
#[inline(always)]
fn subfield_inverse(s: [u8x16; 4]) -> [u8x16; 9]
    ensures { result ≡ run_vectors subfield_inverse (first 4 s) }
{
    let [m20, m21, m22, m23] = s;
    let m24 = m22 ^ m23;
    let m25 = m22 & m20;
    let m26 = m21 ^ m25;
    let m27 = m20 ^ m21;
    let m28 = m23 ^ m25;
    let m29 = m28 & m27;
    let m30 = m26 & m24;
    let m31 = m20 & m23;
    let m32 = m27 & m31;
    let m33 = m27 ^ m25;
    let m34 = m21 & m22;
    let m35 = m24 & m34;
    let m36 = m24 ^ m25;
    let m37 = m21 ^ m29;
    let m38 = m32 ^ m33;
    let m39 = m23 ^ m30;
    let m40 = m35 ^ m36;
    let m41 = m38 ^ m40;
    let m42 = m37 ^ m39;
    let m43 = m37 ^ m38;
    let m44 = m39 ^ m40;
    let m45 = m42 ^ m41;
    [m37, m38, m39, m40, m41, m42, m43, m44, m45]
}

/// The products of these and of the sums of bits.
#[inline(always)]
fn inverse_products(inverse: [u8x16; 9], sums: [u8x16; 22]) -> [u8x16; 18]
    ensures { result ≡ run_vectors inverse_products (first 9 inverse ++ first 22 sums) }
{
    let [m37, m38, m39, m40, m41, m42, m43, m44, m45] = inverse;
    let [
        t23,
        t22,
        t2,
        t1,
        t24,
        t8,
        t19,
        t9,
        t10,
        t13,
        t3,
        t25,
        t17,
        t20,
        t4,
        d,
        t6,
        t16,
        t27,
        t15,
        t14,
        t26,
    ] = sums;
    let m46 = m44 & t6;
    let m47 = m40 & t8;
    let m48 = m39 & d;
    let m49 = m43 & t16;
    let m50 = m38 & t9;
    let m51 = m37 & t17;
    let m52 = m42 & t15;
    let m53 = m45 & t27;
    let m54 = m41 & t10;
    let m55 = m44 & t13;
    let m56 = m40 & t23;
    let m57 = m39 & t19;
    let m58 = m43 & t3;
    let m59 = m38 & t22;
    let m60 = m37 & t20;
    let m61 = m42 & t1;
    let m62 = m45 & t4;
    let m63 = m41 & t2;
    [
        m46, m47, m48, m49, m50, m51, m52, m53, m54, m55, m56, m57, m58, m59, m60, m61, m62, m63,
    ]
}

/// From the products: the bits of the substitutes, the lowest first.
#[inline(always)]
fn output_sums(s: [u8x16; 18]) -> [u8x16; 8]
    ensures { result ≡ run_vectors output_sums (first 18 s) }
{
    let [
        m46,
        m47,
        m48,
        m49,
        m50,
        m51,
        m52,
        m53,
        m54,
        m55,
        m56,
        m57,
        m58,
        m59,
        m60,
        m61,
        m62,
        m63,
    ] = s;
    let p0 = m52 ^ m61;
    let p1 = m58 ^ m59;
    let p2 = m54 ^ m62;
    let p3 = m47 ^ m50;
    let p4 = m48 ^ m56;
    let p5 = m46 ^ m51;
    let p6 = m49 ^ m60;
    let p7 = p0 ^ p1;
    let p8 = m50 ^ m53;
    let p9 = m55 ^ m63;
    let p10 = m57 ^ p4;
    let p11 = p0 ^ p3;
    let p12 = m46 ^ m48;
    let p13 = m49 ^ m51;
    let p14 = m49 ^ m62;
    let p15 = m54 ^ m59;
    let p16 = m57 ^ m61;
    let p17 = m58 ^ p2;
    let p18 = m63 ^ p5;
    let p19 = p2 ^ p3;
    let p20 = p4 ^ p6;
    let p22 = p2 ^ p7;
    let p23 = p7 ^ p8;
    let p24 = p5 ^ p7;
    let p25 = p6 ^ p10;
    let p26 = p9 ^ p11;
    let p27 = p10 ^ p18;
    let p28 = p11 ^ p25;
    let p29 = p15 ^ p20;
    let w0 = p13 ^ p22;
    let w1 = p26 ^ p29;
    let w2 = p17 ^ p28;
    let w3 = p12 ^ p22;
    let w4 = p23 ^ p27;
    let w5 = p19 ^ p24;
    let w6 = p14 ^ p23;
    let w7 = p9 ^ p16;
    [w7, w6, w5, w4, w3, w2, w1, w0]
}

/// The inverse S-box of each byte.
#[inline(always)]
pub fn inv_sub_bytes(s: Slices) -> Slices
    ensures { (j l : ℕ) → j < 8 → l < 16 → cell result j l ≡ gates_byte (cell s j l) }
{
    are_whole(s);
    let sums = input_sums(s);
    let inverse = subfield_inverse(subfield_element(sums));
    output_sums(inverse_products(inverse, sums))
}
