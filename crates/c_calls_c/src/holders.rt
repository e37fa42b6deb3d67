// The calls of the register, as C links them.
ghost use Rattle.std.specs.Prelude.{◌≡◌};
ghost use Rattle.rules.specs.Rules.{Free, Allocate, Reserve};
ghost use Rattle.image_parts.specs.Layout.{current};
ghost use Rattle.c_over.specs.CCalls.{returned};
ghost use Rattle.pool_state.specs.Lent.{was, is};
ghost use Rattle.holder_rules.specs.Holders.{Offer, By};
ghost use Rattle.holder_calls.specs.Calls.{new_over, call_over_lem};

// The image of the empty allocator with no range held, over whatever is there.
#[unsafe(no_mangle)]
pub extern "C" fn cinghjalofa_holders_new(image: &mut [u8]) -> i64
    ensures { returned result (is image) ≡ new_over current (was image) }
{
    c_calls::holders::cinghjalofa_holders_new(image)
}

// The board offers `size` bytes from `start`: they become free.
#[unsafe(no_mangle)]
pub extern "C" fn cinghjalofa_holders_offer(image: &mut [u8], start: u64, size: u64) -> i64
    ensures { returned result (is image) ≡ call_over_lem current (Offer start size) (was image) }
{
    c_calls::holders::cinghjalofa_holders_offer(image, start, size)
}

// The holder takes `size` bytes from a multiple of 2^order; the answer is the address of the first.
#[unsafe(no_mangle)]
pub extern "C" fn cinghjalofa_holders_allocate(
    image: &mut [u8],
    holder: u64,
    size: u64,
    order: u64,
) -> i64
    ensures { returned result (is image) ≡ call_over_lem current (By holder (Allocate size order)) (was image) }
{
    c_calls::holders::cinghjalofa_holders_allocate(image, holder, size, order)
}

// The holder takes the bytes from `start`, widened to multiples of 2^order.
#[unsafe(no_mangle)]
pub extern "C" fn cinghjalofa_holders_reserve_memory(
    image: &mut [u8],
    holder: u64,
    start: u64,
    size: u64,
    order: u64,
) -> i64
    ensures { returned result (is image) ≡ call_over_lem current (By holder (Reserve start size order)) (was image) }
{
    c_calls::holders::cinghjalofa_holders_reserve_memory(image, holder, start, size, order)
}

// The holder hands back `size` bytes from `start`, exactly as they were handed out.
#[unsafe(no_mangle)]
pub extern "C" fn cinghjalofa_holders_free(
    image: &mut [u8],
    holder: u64,
    start: u64,
    size: u64,
) -> i64
    ensures { returned result (is image) ≡ call_over_lem current (By holder (Free start size)) (was image) }
{
    c_calls::holders::cinghjalofa_holders_free(image, holder, start, size)
}
