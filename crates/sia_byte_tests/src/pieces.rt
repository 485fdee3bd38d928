//! Pieces of byte strings, and the byte strings back. The products and the second string's pieces are those of a short
//! program in Python that multiplies polynomials bit by bit.
use sia_encoding::Blob;
use sia_pieces::{Piece, cut_pieces, gf_mul, join_pieces};
use std::test::Fail;

/// Two elements and their product.
const PRODUCTS: [(u8, u8, u8); 7] = [
    (0x80, 0x02, 0x1d),
    (0x00, 0x07, 0x00),
    (0x01, 0x53, 0x53),
    (0x53, 0xca, 0x8f),
    (0xff, 0xff, 0xe2),
    (0xb6, 0x53, 0xee),
    (0x8e, 0x02, 0x01),
];

#[test]
fn products_are_those_of_another_program(rt: HostRuntime) {
    for (one, other, product) in PRODUCTS {
        assert!(rt; gf_mul(one, other) == product, "{one} times {other}");
    }
}

#[test]
fn three_bytes_have_three_pieces(rt: HostRuntime) -> Result<(), Fail> {
    let pieces = cut_pieces(rt.alloc(), &[1, 2, 3], 2, 3)?;
    let expected: [[u8; 2]; 3] = [[1, 3], [3, 3], [5, 3]];
    assert!(rt; pieces.len() == expected.len());
    for (piece, bytes) in pieces.as_slice().iter().zip(expected.iter()) {
        assert!(rt; piece.as_slice() == bytes.as_slice());
    }
    Ok(())
}

#[test]
fn two_of_them_give_the_bytes_back(rt: HostRuntime) -> Result<(), Fail> {
    let one = Piece {
        place: 1,
        bytes: Blob::from_slice(rt.alloc(), &[3, 3])?,
    };
    let other = Piece {
        place: 2,
        bytes: Blob::from_slice(rt.alloc(), &[5, 3])?,
    };
    let joined = join_pieces(rt.alloc(), &[one, other], 2, 3)?;
    assert!(rt; joined.as_slice() == [1, 2, 3].as_slice());
    Ok(())
}
