//! User numbers, as `ServiceManager.cpp` and `android_filesystem_config.h` divide them.

ghost use Rattle.std.specs.Prelude.{◌≡◌};
ghost use Rattle.sm_values.specs.Users.{app_of, is_barred, is_isolated_user};

/// User numbers for each of a device's users (`android_filesystem_config.h`).
pub const AID_USER_OFFSET: u32 = 100_000;

/// The first application number (`android_filesystem_config.h`).
pub const AID_APP_START: u32 = 10_000;

/// The first application number of isolated processes (`android_filesystem_config.h`).
pub const AID_ISOLATED_START: u32 = 90_000;

/// The last application number of isolated processes (`android_filesystem_config.h`).
pub const AID_ISOLATED_END: u32 = 99_999;

/// Returns the application number of a user number: the user number modulo `AID_USER_OFFSET`.
pub fn app_number(uid: u32) -> u32
    ensures { result ≡ app_of uid }
{
    uid % AID_USER_OFFSET
}

/// Returns whether the application number is `AID_APP_START` or more: such a process can't add a service.
pub fn is_barred_app(uid: u32) -> bool
    ensures { result ≡ is_barred uid }
{
    app_number(uid) >= AID_APP_START
}

/// Returns whether the application number is from `AID_ISOLATED_START` to `AID_ISOLATED_END`: an isolated process.
pub fn is_isolated(uid: u32) -> bool
    ensures { result ≡ is_isolated_user uid }
{
    let app = app_number(uid);
    AID_ISOLATED_START <= app && app <= AID_ISOLATED_END
}
