//! What holds of all bytes and all choices of pieces: each function has an empty body, and its clause is the law.
ghost use Rattle.sia_pieces.specs.Joined.{PiecesComeBack, PiecesStandForOne};

/// Any k of the n pieces of any bytes give the bytes back, and nothing else.
pub fn pieces_come_back()
    ensures { PiecesComeBack }
{}

/// Any k pieces of one length stand for one list of bytes at most.
pub fn pieces_stand_for_one()
    ensures { PiecesStandForOne }
{}
