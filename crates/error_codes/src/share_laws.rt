// The laws of shares, as the contracts of functions that compute nothing.
ghost use Rattle.error_codes.specs.Secrecy.{ByteSharesAreCounted, ChangedSharesAreFound, SharesHideString};
ghost use Rattle.error_codes.specs.Secrecy.{SplitSharesCombine};

/// States that any shares of a secret, as many as are needed or more, are combined to it: `combine` accepts them, and
/// what it leaves is what `split` was given.
pub fn split_shares_combine()
    ensures { SplitSharesCombine }
{}

/// States that of n shares of a secret, up to (n - k) / 2 of which have other bytes than `split` gave them, exactly these
/// are wrong for polynomials that all are near to, and whose values at 0 are the secret. So `combine_correcting` accepts
/// them, names these, and leaves what `split` was given.
pub fn changed_shares_are_found()
    ensures { ChangedSharesAreFound }
{}

/// States that shares, one fewer than are needed, say nothing of a secret: for each secret of their length there is
/// exactly one choice of drawn bytes that gives them. So all secrets are behind them equally often. That a drawn byte
/// may be 0 is a part of it.
pub fn shares_hide_string()
    ensures { SharesHideString }
{}

/// States the same of one byte by counting, and of fewer shares too: how many choices of drawn bytes give them does
/// not depend on the secret.
pub fn byte_shares_are_counted()
    ensures { ByteSharesAreCounted }
{}
