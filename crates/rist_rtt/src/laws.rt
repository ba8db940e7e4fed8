//! Laws of echoes.
ghost use Rattle.std.specs.Prelude.{◌≡◌, ◌^◌, ◌<◌, ℕ, [], true, false, Some};
ghost use Rattle.rist_rtt.specs.Echo.{EchoOf, echo_in, copied, request, response};

/// A request that is written is read as such.
pub fn written_requests_are_read()
    ensures { (media stamp : ℕ) → stamp < 2 ^ 64
        → echo_in (request media stamp)
        ≡ Some (record { answer = false; flow = media; stamp = stamp; delay = 0; more = [] }) }
{}

/// An answer that is written is read with the request's stamp and the words that it copied.
pub fn written_answers_are_read()
    ensures { (echo : EchoOf) (delay : ℕ) → echo.stamp < 2 ^ 64 → delay < 2 ^ 32
        → echo_in (response echo delay)
        ≡ Some (record { answer = true; flow = echo.flow; stamp = echo.stamp; delay = delay; more = copied echo.more }) }
{}
