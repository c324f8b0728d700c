// The smallest reference text.

/// A reference text that declares the core types and little else; it stands in `data/core.cs` of `bench_grammar` too.
pub const CORE: &str = "namespace System {
    public class Object {
        public Object();
        public virtual bool Equals(object other);
        public virtual int GetHashCode();
        public virtual string ToString();
    }
    public abstract class ValueType { }
    public abstract class Enum : global::System.ValueType { }
    public abstract class Array { }
    public sealed class String {
        public int Length { get; }
        public indexer char Chars[int index] { get; }
        operator bool op_Equality(string left, string right);
        operator bool op_Inequality(string left, string right);
        public static string Concat(string first, string second);
    }
    public abstract class Delegate { }
    public abstract class MulticastDelegate : global::System.Delegate { }
    public class Exception {
        public Exception();
        public Exception(string message);
        public virtual string Message { get; }
    }
    public struct Boolean { }
    public struct Char { }
    public struct SByte { }
    public struct Byte { }
    public struct Int16 { }
    public struct UInt16 { }
    public struct Int32 { }
    public struct UInt32 { }
    public struct Int64 { }
    public struct UInt64 { }
    public class NullReferenceException : global::System.Exception {
        public NullReferenceException();
    }
    public class InvalidCastException : global::System.Exception {
        public InvalidCastException();
    }
    public class IndexOutOfRangeException : global::System.Exception {
        public IndexOutOfRangeException();
    }
    public class ArrayTypeMismatchException : global::System.Exception {
        public ArrayTypeMismatchException();
    }
    public class OverflowException : global::System.Exception {
        public OverflowException();
    }
    public class DivideByZeroException : global::System.Exception {
        public DivideByZeroException();
    }
    public abstract class Attribute { }
    public interface IDisposable {
        void Dispose();
    }
    public static class Console {
        public static void WriteLine(string value);
        public static void WriteLine(int value);
    }
}
namespace System.Threading {
    public static class Monitor {
        public static void Enter(object target, ref bool taken);
        public static void Exit(object target);
    }
}
";
